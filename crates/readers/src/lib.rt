//! Reading a text from left to right, with an exact first fault: readers, the ways to put them together, and what
//! each of them keeps. Stab strings, assembly language, C and the words of a query are grammars over it; nothing here
//! knows of them.
//!
//! The law that the layers above use: a grammar whose readers keep the laws of `proofs/Laws.antt` reads exactly the
//! spellings, and names the first fault of every other text.
#![tactic(auto)]

mod fault;
mod read;
mod stop;
mod whole;

pub use fault::{TextFault, Unread, told};
pub use read::{bad, byte_at, digits_at, is_digit, name_at, number_and, number_at, text_of};
pub use stop::{Refusal, Stop};
pub use whole::whole_number;
