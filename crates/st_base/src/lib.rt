//! What every other crate stands on: growing texts and lists, faults and out of memory, numbers in either byte order at a place of a
//! record, numbers as they are printed, the shown form of a text, multiples of four, things in order of first use, a counter of steps
//! that only contracts see, and the sizes, limits and numbers of faults that several crates name.
//!
//! The law that the layers above use: a field that is read is the number of its bytes, a field that is set is read
//! as what it was set to, and all other bytes stay.
#![tactic(auto)]

mod boxed;
mod fault;
mod laws;
mod layout;
mod list;
mod multiples;
mod numerals;
mod order;
mod shown;
mod sizes;
mod steps;
mod text;

pub use boxed::Boxed;
pub use fault::{
    ADDRESS, AMBIGUOUS, BRACKETS, BYTE, C_AGAIN, C_CYCLE, C_INCOMPLETE, C_LARGE, C_SYNTAX,
    C_UNKNOWN, CLOSED_HEADER, CONTINUATION, DEEP, EMPTY, END, EXCLUDED, FLAG, Fault, HEADERS,
    INSIDE, KIND, LENGTH, LENGTH8, LINE_MIXED, LINE_RANGE, LINE_SYNTAX, LINE_TWICE, LINE_UNDEFINED,
    LONG, MACHINE, MACHINE_MIX, MAGIC, Memory, NO_END, NO_HEADER, NO_UNIT, OPEN_HEADER, ORDER_MIX,
    OUTSIDE, OVERFLOW, PAST, QUERY, RELOC_BYTES, Refused, SEGMENT, SYMBOL, SYMBOL_BYTES, TOO_LARGE,
    TRAILING, TRUNCATED, TWICE, UNDEFINED,
};
pub use laws::{fault_numbers_are, limits_are};
pub use layout::{Layout, field_laws, first_word, number_laws, one_spelling, set_first_word};
pub use list::List;
pub use multiples::{aligned, aligned_laws};
pub use numerals::{digit_value, put_hex2, put_hex4, put_hex8, put_number};
pub use order::Order;
pub use shown::show;
pub use sizes::{
    ENTRY_SIZE, FILE_LIMIT, GREATEST_ADDRESS, HEADER_SIZE, LEAST_STAB, RELOC_SIZE, SOURCE_LIMIT,
    WORD_SIZE,
};
pub use steps::Steps;
pub use text::Text;
