//! How the files of a unit of C declarations are read: from the first of the given ones on, headers where they are included, and each once.
//! It stands on the tokens, the items and the units of C declarations.
//!
//! The law that the layer above uses: files come to exactly one outcome, the text of a unit or the first fault in reading order.
#![tactic(auto)]

mod laws;
mod places;
mod reading;
mod source;

pub use laws::outcome_laws;
pub use places::{find_place, find_places};
pub use reading::Reading;
pub use source::{Progress, Source};
