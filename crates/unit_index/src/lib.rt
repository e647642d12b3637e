//! The headers of an image. A linker keeps a header range once and leaves an N_EXCL wherever it merged one like it: this crate finds for
//! each header the header that opens its range, and gives each N_EXCL back the symbols of that range. It stands on the units of
//! `stab_units` and the worlds of `type_graph`.
#![tactic(auto)]

mod expanding;
mod filling;
mod index;
mod laws;
mod owner;
mod tables;
mod taking;

pub use expanding::expand;
pub use index::Index;
pub use laws::{limits_are, one_expansion, one_index, unexcluded_law};
pub use owner::{HeaderAt, NO_FILE, Owner};
