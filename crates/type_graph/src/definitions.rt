//! The definition of a key, by a search through its unit that takes no memory.

ghost use Rattle.std.specs.Prelude.{◌≡◌, ◌++◌};
ghost use Rattle.std.specs.Option.{option_copied};
ghost use Rattle.type_graph.specs.Searches as spec;
ghost use Rattle.type_graph.specs.Searches.{HasMet, file_definitions};
ghost use Rattle.type_graph.specs.Types.{definition_of, definitions_of, file_symbols as symbols_of_file};

use crate::symbols::{file_symbols, is_cross};
use stab_grammar::{DefinitionVisitor, Key, Symbol, TypeTree, visit_definitions};
use stab_units::{HeaderFile, Unit};

/// Whether a definition counts that is met after others: where none was known, or where a cross reference gives way to it.
pub(crate) fn counts(known: Option<&TypeTree>, body: &TypeTree) -> bool
    ensures { result ≡ spec.counts (option_copied known.entry) body.now }
{
    match known {
        None => true,
        Some(old) => is_cross(old) && !is_cross(body),
    }
}

fn is_settled(known: Option<&TypeTree>) -> bool
    ensures { result ≡ spec.is_settled (option_copied known.entry) }
{
    match known {
        None => false,
        Some(body) => !is_cross(body),
    }
}

// A search for the definition of a key, and what it knows so far.
#[derive(Drop)]
struct Search<'a> {
    key: Key,
    known: Option<&'a TypeTree>,
}

// A definition that is no cross reference is known, so the search is over.
#[derive(Drop)]
struct Settled;

impl<'a> DefinitionVisitor<&'a TypeTree> for Search<'a> {
    ghost use Rattle.type_graph.specs.Searches.{Meets};

    type Stop = Settled;

    ghost visits = { Meets };

    fn visit(&mut self, key: Key, body: &'a TypeTree) -> Result<(), Settled> {
        if self.key == key && counts(self.known, body) {
            self.known = Some(body);
        }
        if is_settled(self.known) {
            return Err(Settled);
        }
        Ok(())
    }
}

fn search_symbols<'a>(symbols: &'a [Symbol], search: &mut Search<'a>) -> Result<(), Settled>
    ensures { HasMet search.old (definitions_of symbols.now) search.new result }
{
    for symbol in symbols {
        visit_definitions(&symbol.tree, search)?;
    }
    Ok(())
}

fn search_files<'a>(files: &'a [HeaderFile], search: &mut Search<'a>) -> Result<(), Settled>
    ensures { HasMet search.old (file_definitions files.now) search.new result }
{
    for file in files {
        search_symbols(file.symbols.items(), search)?;
    }
    Ok(())
}

// The own file of the key is gone through first, and then again among all files, where it changes nothing.
fn search_unit<'a>(unit: &'a Unit, search: &mut Search<'a>) -> Result<(), Settled>
    ensures { HasMet search.old (definitions_of (symbols_of_file unit.now search.old.key.file) ++ file_definitions unit.now.files) search.new result }
{
    search_symbols(file_symbols(unit, search.key.file), search)?;
    search_files(unit.files.items(), search)
}

/// The definition of a key: the first `number=type` with this number whose type is no cross reference, or else the first cross
/// reference; `None` exactly where there is neither.
///
/// The search goes through the key's own file, then file 0, then the other files upwards; in a file through the symbols in order;
/// in a symbol outermost first and from left to right. Takes no memory. After "The stabs debug format", on type numbers and cross
/// references; the order of the search is this project's own.
pub fn definition(unit: &Unit, key: Key) -> Option<&TypeTree>
    ensures { option_copied result ≡ definition_of unit.now key }
{
    let mut search = Search { key, known: None };
    match search_unit(unit, &mut search) {
        Ok(()) | Err(Settled) => search.known,
    }
}
