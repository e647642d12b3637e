//! Entries of the symbol table of an a.out file, twelve bytes each, and the kinds of those that are no stabs.
//!
//! The law that the layers above use: an entry that is read has the numbers of its fields, an entry that is written
//! is read again, and what was read is written as the same bytes.
#![tactic(auto)]

mod entries;
mod entry;
mod kinds;
mod named;

pub use entries::read_entries;
pub use entry::{Entry, entry_laws, read_entry, write_entry};
pub use kinds::{
    ABSOLUTE_EXTERNAL, ABSOLUTE_SEGMENT, BSS_EXTERNAL, BSS_SEGMENT, DATA_EXTERNAL, DATA_SEGMENT,
    SEGMENT_BITS, TEXT_EXTERNAL, TEXT_SEGMENT, UNDEFINED_EXTERNAL, defines_name, limits_are,
};
pub use named::Named;
