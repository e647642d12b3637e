//! Header ranges merged: the entries of an image in which each range that another unit has too stands once, and the law that such an
//! image, expanded, is the world of the entries that it was made of. It stands on the ranges and groupings of `bincl_match`, and on what
//! `unit_index` makes of an image.
#![tactic(auto)]

mod laws;
mod merging;

pub use laws::merged_world;
pub use merging::merge_headers;
