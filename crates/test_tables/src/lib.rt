//! Tables of calls and their answers, for the crates that test libraries: a text with a line for each row, which one function
//! interprets. It tests nothing itself, and the program has nothing of it.
//!
//! A row is a call, its input, ` -> ` and the answer, each a word or a few, one blank between two words; a line that begins with `#`
//! says what the rows under it are about, up to an empty line, and a row that fails is told with it:
//!
//! ```text
//! # the length word alone
//! check_table big 00000004 -> ok
//! ```
//!
//! What words a call is given is said in another text, with a line for each call:
//!
//! ```text
//! check_table : order bytes
//! ```
//!
//! - `number8`, `number16`, `number32`, `number64`: a number of so many bits, decimal, or behind `0x` hexadecimal.
//! - `bytes`: hexadecimal digits, two for each byte, and texts between quotes, as `0000000c_'a.c'00`; `_` means nothing. No bytes are `.`.
//! - `order`: `little` or `big`.
//! - `word`: any word, as it stands.
//! - `rest`: all that is left, as it stands, perhaps nothing. `nothing`: no word.
#![tactic(auto)]

mod answer;
mod given;
mod table;
mod words;

pub use answer::{Answer, Odd};
pub use given::Given;
pub use table::{Calls, Told, failed_rows};
pub use words::{bytes_of, cut, number_of, shown};
