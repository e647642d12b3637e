//! String tables of a.out files: the check of a table, the name at an offset, and a table that is being
//! built. It stands on the fields of `st_base`, and finds names by `indexmap`.
//!
//! The law that the layers above use: in the table that a builder makes, the name at the offset that
//! `Builder::add` gave for a name is that name.
#![tactic(auto)]

mod builder;
mod laws;
mod table;

pub use builder::Builder;
pub use laws::{limits_are, names_are_found, uses_are_found};
pub use table::{check_table, name_at};
