//! Reading stab strings: a symbol is a name, a colon, a descriptor and a type, and each tree has one spelling. This crate has the
//! parser and the laws of spellings, and hands on the trees, the printer and the walks of `stab_symbols`.
//!
//! It stands on `stab_symbols` for what is read and on `readers` for reading from left to right. The law that the layers above use:
//! each tree that has a spelling is read back from it, what is read is spelled so, and any other string is refused with its first
//! fault. After "The stabs debug format", the C parts.
#![tactic(auto)]

mod grammar;
mod laws;
mod read;

pub use laws::{one_place, one_symbol, shape_laws};
pub use read::parse;
pub use stab_symbols::{
    Choice, DefinitionVisitor, Descriptor, Field, GREATEST_DEPTH, GREATEST_FILE, GREATEST_NUMBER,
    Key, MOST_DIGITS, Num, NumberVisitor, Numeral, StandsForTree, Symbol, Tag, TypeTree, key_of,
    letters_of, limits_are, numbers, print, print_placed, print_placed_by, print_type, renumber,
    shape, visit_definitions, visit_numbers, visit_surface,
};
