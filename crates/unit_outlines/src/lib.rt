//! Where compilation units stand in an entry list, with the headers that they include, and what an entry is to them: a mark that nests, a
//! part of a string that goes on, a source mark. It stands on named entries and on stab codes alone, and parses no string.
//!
//! The law that the layers above use: a list of entries has either no fault of an outline, or exactly one that is reported; and what
//! closes a header range or a block is the first entry after it up to which ends have caught up with begins.
//!
//! ```text
//! "d/"    N_SO        names the directory of the unit that begins at the next entry
//! "a.c"   N_SO        the unit `d/a.c`
//! "x.h"   N_BINCL     its header 1
//! "i:t1"              in file 1
//! "y.h"   N_EXCL      its header 2, which has no entries
//!         N_EINCL     ends the range of `x.h`
//!         N_SO        ends the unit's text
//! ```
#![tactic(auto)]

mod closings;
mod faults;
mod kinds;
mod laws;
mod limits;
mod nest;
mod outline_types;
mod outlines;
mod spans;
mod stack;

pub use kinds::{Link, Nesting, SourceMark, goes_on, is_header, is_plain, piece};
pub use laws::{closing_law, few_spans, file_law, limits_are, one_outline};
pub use limits::{HEADER_LIMIT, STRING_LIMIT};
pub use nest::Nest;
pub use outline_types::{HeaderMark, Marks, UnitSpan};
pub use outlines::outline;
pub use stack::Stack;
