//! A source in the directives of GNU as, as a list of statements, or its first line that does not parse. Each statement gives at most one
//! field, one entry and one relocation: `.long a,b` is two. It stands on texts and on what a name of a string table is.
//!
//! The law that the layer above uses: `read_source` answers the statements that `Lines.read_source` says, and they fit
//! (`Fits.AllFit`): their sums have room, and their names hold no zero byte.
#![tactic(auto)]

mod directive;
mod directives;
mod expression;
mod lines;
mod number;
mod operands;
mod out;
mod scan;
mod statement;
mod token;

pub use directive::Directive;
pub use expression::{Expression, Form};
pub use lines::read_source;
pub use number::{Kept, Number};
pub use out::Statements;
pub use statement::{Name, Part, Plain, Rel, Stab, Statement, Sum, What, Width, size_of_width};
pub use token::Quoted;
