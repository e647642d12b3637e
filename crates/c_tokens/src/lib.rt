//! The tokens of a source in a subset of C: names, words, numbers and marks, and lines of an include, one after another, with what
//! each says and its line. It stands on texts alone.
//!
//! The law that the layer above uses: a `Cursor` has the tokens of the source that are left, and `next` takes the first of them.
#![tactic(auto)]

mod cursor;
mod front;
mod kind;
mod piece;
mod pieces;
mod token;
mod words;

pub use cursor::Cursor;
pub use kind::Kind;
pub use token::Token;
