//! The symbols of a file, and what a symbol says of a type: which number it names, and by what sort of name.

ghost use Rattle.std.specs.Prelude.{◌≡◌};
ghost use Rattle.stab_symbols.specs.Definitions as grammar;
ghost use Rattle.stab_units.specs.Units as units;
ghost use Rattle.type_graph.specs.Types as spec;

use stab_grammar::{Descriptor, Key, Symbol, TypeTree, key_of};
use stab_units::Unit;

/// The symbols of the file with this number; none where the unit has no such file. Takes no memory.
pub fn file_symbols(unit: &Unit, file: u32) -> &[Symbol]
    ensures { result.now ≡ spec.file_symbols unit.now file }
{
    match unit.files.get(file as usize) {
        Some(file) => file.symbols.items(),
        None => &[],
    }
}

/// The number that a type is, or that it defines at once; `None` for every other type. Takes no memory.
pub fn outer_key(tree: &TypeTree) -> Option<Key>
    ensures { result ≡ grammar.outer_key tree.now }
{
    match tree {
        TypeTree::Ref(num) | TypeTree::Def(num, _) => Some(key_of(num)),
        _ => None,
    }
}

/// Whether a type is a cross reference. Takes no memory.
pub fn is_cross(tree: &TypeTree) -> bool
    ensures { result ≡ grammar.is_cross tree.now }
{
    matches!(tree, TypeTree::Cross(_, _))
}

/// Whether a symbol with this descriptor names a type: `t`, `T` or `Tt`. Takes no memory.
pub fn is_type_symbol(descriptor: Descriptor) -> bool
    ensures { result ≡ units.is_type_symbol descriptor }
{
    matches!(
        descriptor,
        Descriptor::Typedef | Descriptor::Tag | Descriptor::TagTypedef
    )
}
