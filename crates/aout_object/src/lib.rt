//! A whole a.out file: its header, its segments, their relocations, the entries of its symbol table, and its string table.
//! It stands on the crates that read and write each of these records.
//!
//! The law that the layers above use: a file is either spelled by exactly one object, which is decoded, or has a first fault,
//! which is answered; an object is written as the one file that spells it.
#![tactic(auto)]

mod laws;
mod make;
mod names;
mod object;
mod parts;
mod read;
mod write;

pub use laws::{limits_are, object_laws};
pub use object::Object;
pub use parts::Parts;
pub use read::decode;
pub use write::encode;
