//! Command lines: what their words ask, a command with its operands or the place of the first wrong word, and which files a command reads.
//! It stands on the words of queries and on the modes of linking.
//!
//! The law that the layers above use: words ask one command or have one wrong place (`Commands.asked`), and a command says which files it
//! reads, how long each of them may be, and which one it stores (`inputs_of`, `most_of`, `output_of`).
#![tactic(auto)]

mod command;
mod laws;
mod limits;
mod words;

pub use command::{Asked, Command, inputs_of, most_of, read_words};
pub use laws::limits_are;
pub use limits::{MOST_NAMES, OBJECT_LIMIT};
