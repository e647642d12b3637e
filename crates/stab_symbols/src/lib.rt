//! What a stab string stands for: a symbol is a name, a descriptor and a type, and a type is a tree. This crate has these trees,
//! their one spelling and its printer, the keys of type numbers, the walks over numbers and definitions, the files of type numbers,
//! and copies.
//!
//! It stands on `st_base` for texts and lists, and cites which bytes a name may have from `readers`. What the layers above use:
//! `print` appends the spelling that `SymbolSpelling` gives, or leaves the text as it was. After "The stabs debug format", the C
//! parts.
#![tactic(auto)]

mod copy;
mod definitions;
mod descriptors;
mod files;
mod keys;
mod limits;
mod placed;
mod printing;
mod tree;
mod walk;

pub use definitions::{DefinitionVisitor, StandsForTree, visit_definitions};
pub use files::{numbers, renumber, shape};
pub use keys::key_of;
pub use limits::{GREATEST_DEPTH, GREATEST_FILE, GREATEST_NUMBER, MOST_DIGITS, limits_are};
pub use placed::{print_placed, print_placed_by};
pub use printing::{letters_of, print, print_type};
pub use tree::{Choice, Descriptor, Field, Key, Num, Numeral, Symbol, Tag, TypeTree};
pub use walk::{NumberVisitor, visit_numbers, visit_surface};
