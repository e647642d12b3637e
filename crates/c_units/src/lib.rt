//! The unit of stabs text that a producer writes from C declarations: a `Draft`, and what each act of a declaration does to it. A tag is
//! mentioned, a body begins, a field is added, a name is given, a variable, a parameter or a local is added, a header is entered: each is
//! one method, whose result is a definition over plain values, with the fault of that act. It stands on `c_types`, which has the types
//! and their text and is exported again.
//!
//! The law that the layer above uses: each act gives the draft that the definition of its name gives, or that definition's fault, which
//! changes nothing. No act looks through a list, or writes anywhere but at the end of the text.
#![tactic(auto)]

mod choices;
mod declarations;
mod draft;
mod files;
mod functions;
mod laws;
mod layout;
mod tags;

pub use c_types::{
    Alignment, CType, Declared, Extent, Mention, Names, Qualifiers, SIZE_LIMIT, Size, Spelling,
    Stack, Tag, TypeNumber, Typedef, Typedefs, Word, size_limit_is,
};
pub use choices::{Listed, Whole};
pub use draft::{Draft, Outer, Scope};
pub use files::BASIC_LINES;
pub use laws::{basic_lines_are, limits_are};
pub use layout::Layout;
