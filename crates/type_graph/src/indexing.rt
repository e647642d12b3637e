//! The maps of a unit by key: of the definitions, and of the symbols that name types.

ghost use Rattle.std.specs.Prelude.{◌≡◌, [], ◌∷◌, ◌||◌, not, slice_get, IfOk, OnOk};
ghost use Rattle.stab_symbols.specs.declared.tree.Key.{Key as KeyValue};
ghost use Rattle.type_graph.specs.TypeMaps as spec;
ghost use Rattle.type_graph.specs.TypeMaps.{HasDefinitions, HasNames, HasNoted, body_in, named_in, own_only, symbol_in};
ghost use Rattle.type_graph.specs.Searches.{file_definitions, noted, noted_all};
ghost use Rattle.type_graph.specs.Types.{definitions_of, symbols_in};

use crate::definitions::counts;
use crate::symbols::{is_type_symbol, outer_key};
use indexmap::IndexMap;
use st_base::Memory;
use stab_grammar::{DefinitionVisitor, Key, Symbol, TypeTree, visit_definitions};
use stab_units::{HeaderFile, Unit};
use std::alloc::Global;

// ---- definitions

fn note<'a>(
    bodies: &mut IndexMap<Key, &'a TypeTree>,
    key: Key,
    body: &'a TypeTree,
) -> Result<(), Memory>
    ensures { OnOk result ((k : KeyValue) → body_in bodies.new k ≡ noted k (body_in bodies.old k) (record { key = key; body = body.now })) }
{
    if counts(bodies.get(&key).copied(), body) {
        bodies.insert(key, body)?;
    }
    Ok(())
}

// The map as it grows by one definition after another.
#[derive(Drop)]
struct Noting<'a> {
    bodies: IndexMap<Key, &'a TypeTree>,
    // The file whose keys are noted; `None` for those of all files.
    only: Option<usize>,
    // Whether a definition was left out since its key is of another file.
    strays: bool,
}

fn is_noted(only: Option<usize>, key: Key) -> bool
    ensures { result ≡ spec.is_noted only key }
{
    match only {
        None => true,
        Some(file) => key.file as usize == file,
    }
}

impl<'a> DefinitionVisitor<&'a TypeTree> for Noting<'a> {
    ghost use Rattle.type_graph.specs.TypeMaps.{Notes};

    type Stop = Memory;

    ghost visits = { Notes };

    fn visit(&mut self, key: Key, body: &'a TypeTree) -> Result<(), Memory> {
        if !is_noted(self.only, key) {
            self.strays = true;
            return Ok(());
        }
        note(&mut self.bodies, key, body)
    }
}

fn note_symbols<'a>(symbols: &'a [Symbol], noting: &mut Noting<'a>) -> Result<(), Memory>
    ensures { OnOk result (HasNoted noting.old (definitions_of symbols.now) noting.new) }
{
    for symbol in symbols {
        visit_definitions(&symbol.tree, noting)?;
    }
    Ok(())
}

// The definitions that stand in the own file of their key. `strays` says whether there are others.
fn note_own<'a>(files: &'a [HeaderFile], noting: &mut Noting<'a>) -> Result<(), Memory>
    ensures own { OnOk result ((k : KeyValue) → body_in noting.new.bodies k ≡ noted_all k (body_in noting.old.bodies k) (definitions_of (symbols_in (slice_get files.now k.file)))) }
    ensures strays { OnOk result (noting.new.strays ≡ (noting.old.strays || not (own_only 0 files.now))) }
{
    for (number, file) in files.iter().enumerate() {
        noting.only = Some(number);
        note_symbols(file.symbols.items(), noting)?;
    }
    Ok(())
}

// The definitions of all files, from file 0 upwards.
fn note_all<'a>(files: &'a [HeaderFile], noting: &mut Noting<'a>) -> Result<(), Memory>
    ensures { OnOk result (HasNoted noting.old (file_definitions files.now) noting.new) }
{
    for file in files {
        note_symbols(file.symbols.items(), noting)?;
    }
    Ok(())
}

/// The definitions of a unit by key, each as `definition` finds it. Refused only when out of memory.
pub fn definitions<'a>(alloc: Global, unit: &'a Unit) -> Result<IndexMap<Key, &'a TypeTree>, Memory>
    ensures { IfOk result (HasDefinitions unit.now) }
{
    let files = unit.files.items();
    let mut noting = Noting {
        bodies: IndexMap::new(alloc),
        only: None,
        strays: false,
    };
    note_own(files, &mut noting)?;
    if !noting.strays {
        return Ok(noting.bodies);
    }
    noting.only = None;
    note_all(files, &mut noting)?;
    Ok(noting.bodies)
}

// ---- names

// A symbol of a file counts where its number is of that file and had no name before.
fn note_name<'a>(
    names: &mut IndexMap<Key, &'a Symbol>,
    file: usize,
    symbol: &'a Symbol,
) -> Result<(), Memory>
    ensures { OnOk result ((k : KeyValue) → symbol_in names.new k ≡ named_in file k (symbol_in names.old k) (symbol.now ∷ [])) }
{
    if !is_type_symbol(symbol.descriptor) {
        return Ok(());
    }
    match outer_key(&symbol.tree) {
        Some(key) if key.file as usize == file => {
            if !names.contains_key(&key) {
                names.insert(key, symbol)?;
            }
            Ok(())
        }
        _ => Ok(()),
    }
}

fn note_names<'a>(
    names: &mut IndexMap<Key, &'a Symbol>,
    file: usize,
    symbols: &'a [Symbol],
) -> Result<(), Memory>
    ensures { OnOk result ((k : KeyValue) → symbol_in names.new k ≡ named_in file k (symbol_in names.old k) symbols.now) }
{
    for symbol in symbols {
        note_name(names, file, symbol)?;
    }
    Ok(())
}

/// The symbols of a unit that name types, by key, each as `type_name` finds it. Refused only when out of memory.
pub fn names<'a>(alloc: Global, unit: &'a Unit) -> Result<IndexMap<Key, &'a Symbol>, Memory>
    ensures { IfOk result (HasNames unit.now) }
{
    let mut names = IndexMap::new(alloc);
    let files = unit.files.items();
    for (number, file) in files.iter().enumerate() {
        note_names(&mut names, number, file.symbols.items())?;
    }
    Ok(names)
}
