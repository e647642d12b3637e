//! The symbol that names a key, and the key that a tag or typedef names.

ghost use Rattle.std.specs.Prelude.{◌≡◌, Bool};
ghost use Rattle.std.specs.List.{find};
ghost use Rattle.std.specs.Option.{option_copied};
ghost use Rattle.type_graph.specs.Sorts.{is_of};
ghost use Rattle.type_graph.specs.Types as spec;

use crate::symbols::{file_symbols, is_type_symbol, outer_key};
use stab_grammar::{Descriptor, Key, Symbol};
use stab_units::Unit;

// ---- the name of a key

fn is_name(symbol: &Symbol, key: Key) -> bool
    ensures { result ≡ spec.is_name key symbol.now }
{
    if !is_type_symbol(symbol.descriptor) {
        return false;
    }
    match outer_key(&symbol.tree) {
        Some(outer) => key == outer,
        None => false,
    }
}

/// The symbol that names a key: the first `t`, `T` or `Tt` of the key's own file whose outermost type is that number, whether the
/// number has a definition or not; `None` where there is none. Takes no memory.
///
/// After "The stabs debug format", on type numbers and include files; the order is this project's own.
pub fn type_name(unit: &Unit, key: Key) -> Option<&Symbol>
    ensures { option_copied result ≡ spec.name_of unit.now key }
{
    let symbols = file_symbols(unit, key.file);
    for symbol in symbols {
        if is_name(symbol, key) {
            return Some(symbol);
        }
    }
    None
}

// ---- the key of a name

/// The two sorts of names of types.
#[derive(Clone, Copy, Drop)]
enum Sort {
    /// `T` or `Tt`.
    Tag,
    /// `t` or `Tt`.
    Typedef,
}

fn is_of(sort: Sort, descriptor: Descriptor) -> bool
    ensures { result ≡ is_of sort descriptor }
{
    match sort {
        Sort::Tag => matches!(descriptor, Descriptor::Tag | Descriptor::TagTypedef),
        Sort::Typedef => matches!(descriptor, Descriptor::Typedef | Descriptor::TagTypedef),
    }
}

// Whether a symbol is of this sort and name, and has a number as its outermost type.
fn is_named(symbol: &Symbol, sort: Sort, name: &[u8]) -> bool
    ensures { result ≡ spec.is_named (is_of sort) name.now symbol.now }
{
    is_of(sort, symbol.descriptor)
        && symbol.name.bytes() == name
        && outer_key(&symbol.tree).is_some()
}

fn first_named<'a>(symbols: &'a [Symbol], sort: Sort, name: &[u8]) -> Option<&'a Symbol>
    ensures { option_copied result ≡ find (spec.is_named (is_of sort) name.now) symbols.now }
{
    for symbol in symbols {
        if is_named(symbol, sort, name) {
            return Some(symbol);
        }
    }
    None
}

fn find_key(unit: &Unit, sort: Sort, name: &[u8]) -> Option<Key>
    ensures { result ≡ spec.key_named (is_of sort) unit.now name.now }
{
    let files = unit.files.items();
    for file in files {
        if let Some(symbol) = first_named(file.symbols.items(), sort, name) {
            return outer_key(&symbol.tree);
        }
    }
    None
}

/// The key of a tag: the outermost type of the first `T` or `Tt`, over files 0, 1, 2 and so on, that has this name and a number as
/// its outermost type; `None` where there is none. Takes no memory.
///
/// After "The stabs debug format", on tags; the order is this project's own.
pub fn find_tag(unit: &Unit, name: &[u8]) -> Option<Key>
    ensures { result ≡ spec.tag_of unit.now name.now }
{
    find_key(unit, Sort::Tag, name)
}

/// The key of a typedef: as `find_tag`, of the first `t` or `Tt` of this name. Takes no memory.
///
/// After "The stabs debug format", on typedefs; the order is this project's own.
pub fn find_typedef(unit: &Unit, name: &[u8]) -> Option<Key>
    ensures { result ≡ spec.typedef_of unit.now name.now }
{
    find_key(unit, Sort::Typedef, name)
}
