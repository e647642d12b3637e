//! What the items of a source in a subset of C mean for a unit of stabs text. It stands on `c_items`, which finds items and the role of each
//! of their tokens, and on `c_units`, which says what each act of a declaration does to a unit.
//!
//! The law that the layer above uses: `take_item` gives the draft behind the item in front, or its first fault in reading order, as
//! `of_item` of `specs/Meaning.antt` says by recursion on the item's tree. The code walks over the tokens instead: it keeps a list of open
//! bodies, and no function recurs.
#![tactic(auto)]

mod acts;
mod carrying;
mod declaring;
mod laws;
mod part;
mod taking;
mod walk;

pub use laws::item_means;
pub use taking::take_item;
