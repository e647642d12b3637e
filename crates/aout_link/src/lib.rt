//! The linker of a.out objects: from a list of objects whose entries have units, and a base address, to one image in which a header range
//! is kept or has another one kept for it, or to the first fault of the list. It stands on objects, their entries and relocations, on
//! units, on header ranges and on the entries of an image whose ranges are merged.
//!
//! The law that the layers above use: a list is refused exactly where it is not accepted, for the first fault in a fixed order; what
//! is placed of an accepted list is told by sums over the objects that stand before each; and the entries of the image are those that
//! merging makes of the placed ones, by the grouping of a mode. A list of objects that have units has exactly one image in each mode, or
//! exactly one fault.
#![tactic(auto)]

mod checked;
mod commons;
mod definitions;
mod gathering;
mod image;
mod laws;
mod linking;
mod moves;
mod placed;
mod placing;
mod refusals;
mod relocating;

pub use bincl_match::Mode;
pub use checked::Checked;
pub use laws::{accepted_laws, first_laws, group_laws, one_link};
pub use linking::{Image, link};
pub use placed::{Placed, place_objects};
