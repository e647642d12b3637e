//! Header ranges of an entry list, and which of them are kept. A compiler writes the types of a header file into each unit that includes
//! it, between N_BINCL and N_EINCL; a linker that keeps the range of one unit for those of the others needs to know what a range is
//! wherever it stands, and which ranges are one. It stands on the units of `stab_units` and on the shapes, files and spellings of
//! `stab_grammar`.
//!
//! The law that the layers above use: the entries of an object have exactly one list of ranges, in which a unit and a file open one
//! header at most, and a candidate is the only range of its unit with its name and shape; and a list of ranges has exactly one grouping
//! by classes, and one in which every range is kept, both of which are mergings. What is found in each of several lists that stand one
//! after the other is, but for the numbers of units and for what some unit has twice, what is found in the whole: so a linker looks at
//! each string once.
//!
//! ```text
//! "a.c"   N_SO        unit 0
//! "x.h"   N_BINCL     range 0: unit 0, file 1
//! "i:t(1,2)"          its own entry: shape `i:t(,2)`, numbers 1
//! "y.h"   N_BINCL     range 1: unit 0, file 2, inside range 0
//! "j:t7"              its own entry: shape `j:t7`, no numbers
//!         N_SLINE     its own entry, so range 1 is no candidate
//!         N_EINCL
//!         N_EINCL
//! ```
#![tactic(auto)]

mod beside;
mod crowd;
mod found;
mod groups;
mod instances;
mod joining;
mod kinds;
mod laws;
mod matching;
mod mode;
mod owning;
mod prepare;
mod prepared;
mod range;
mod reading;
mod refine;
mod sums;
mod unit_ranges;

pub use found::Found;
pub use instances::{alone, instance_of, kept_of};
pub use joining::join_ranges;
pub use laws::{found_laws, matching_laws, merging_laws, one_alone, one_classes, one_ranges};
pub use matching::classes;
pub use mode::Mode;
pub use range::{Grouping, RangeOf};
pub use reading::{find_ranges, ranges};
