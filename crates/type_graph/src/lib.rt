//! Worlds and types: the units of a file with its externals, where a type number is defined and named, and all types that one leads
//! to. It stands on the units of `stab_units` and the trees of `stab_grammar`.
//!
//! The law that the layers above use: a key has one definition at most and one listing in a unit, and a `TypeIndex` gives the same
//! as a search through the unit.
#![tactic(auto)]

mod definitions;
mod indexing;
mod key_set;
mod listings;
mod names;
mod symbols;
mod type_index;
mod world;

pub use definitions::definition;
pub use key_set::KeySet;
pub use listings::{KeyList, a_listing, listed, listing, one_listing};
pub use names::{find_tag, find_typedef, type_name};
pub use symbols::file_symbols;
pub use type_index::TypeIndex;
pub use world::{External, World, externals, world_of};
