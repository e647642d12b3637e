//! The types of C declarations, as a unit of stabs writes them: how a type is spelled, how large it is, the lines of each declaration, and
//! the names of a scope. It stands on texts and faults alone, and finds names by `indexmap`.
//!
//! The law that the layer above uses: what is appended for a type or a declaration is the text that `specs/Types.antt` and `Lines.antt` say,
//! and the text before it stays.
#![tactic(auto)]

mod ctype;
mod laws;
mod lines;
mod names;
mod sizes;
mod stack;
mod typedefs;

pub use ctype::{CType, Declared, Mention, Qualifiers, Spelling, Tag, TypeNumber, Typedef, Word};
pub use laws::size_limit_is;
pub use lines::{
    put_block_begin, put_block_end, put_declared, put_definition, put_definition_front,
    put_function, put_local, put_numbered_local, put_param, put_statement, put_static,
    put_symbol_end, put_type_number, put_typedef, put_variable,
};
pub use names::Names;
pub use sizes::{Alignment, Extent, SIZE_LIMIT, Size, array_extent, cut, repeated, rounded};
pub use stack::Stack;
pub use typedefs::Typedefs;
