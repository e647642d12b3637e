//! What the statements of a source make: an a.out object of either byte order, or their first fault. It stands on the statements
//! (`asm_statements`), and on the crate that makes an object of parts and entries.
//!
//! Four passes go down the list: the table of names and sizes (`table`), the first fault (`check`), the undefined names (`undefined`), and
//! what is made (`making`). What a statement means is a look-up in the finished table, so no field is filled in later.
//!
//! The laws that the layer above uses: `assemble_statements` gives what `Making.object_of` says, and the fault is the first by line and
//! number (`first_fault_laws`). Where statements stand and what names stand for is said by sums and first places over the statements
//! (`place_laws`), and so is where in the object stands what each gives (`making_laws`); `limits_are` has the ranges in numbers.
#![tactic(auto)]

mod assembling;
mod check;
mod laws;
mod limits;
mod making;
mod names;
mod table;
mod undefined;
mod value;
mod words;

pub use assembling::assemble_statements;
pub use check::Use;
pub use laws::{first_fault_laws, limits_are, making_laws, place_laws};
pub use names::Names;
pub use table::{Definition, Home, Places, Table};
pub use words::Words;
