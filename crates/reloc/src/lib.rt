//! Relocations of an a.out file: eight bytes each, and what one does to a field of its segment.
//!
//! The law that the layers above use: a relocation is read exactly from the bytes that spell it, reading and writing are
//! inverse, and a field becomes the stated sum or the fault stands and nothing changes.
#![tactic(auto)]

mod column;
mod field;
mod laws;
mod read;
mod reloc;
mod write;

pub use field::apply;
pub use laws::limits_are;
pub use read::read_reloc;
pub use reloc::Reloc;
pub use write::{reloc_laws, write_reloc};
