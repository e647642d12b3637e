//! The assembler of stabs: from a source in the directives of GNU as to an a.out object of either byte order; and the printer of an
//! object as assembly, which assembles to the same object again.
//!
//! A source is read into a list of statements (`asm_statements`), and what these make, or their first fault, is found by passes down the
//! list (`asm_objects`).
//!
//! The laws that the layer above uses: `assemble` gives what `Assembling.assembled` says of the source, and the text that `list` prints of
//! an object assembles to it again (`listing_laws`, `object_is_listed`).
#![tactic(auto)]

mod assembling;
mod printed;
mod reading_back;

pub use assembling::assemble;
pub use printed::list;
pub use reading_back::{listing_laws, object_holds_bytes, object_is_listed};
pub use st_base::SOURCE_LIMIT;
