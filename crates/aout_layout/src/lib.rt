//! The header of an a.out file: 32 bytes whose first word decides the byte order of the file.
//!
//! The law that the layers above use: a header is read exactly from the bytes that spell it, each fault is answered exactly
//! where it is the first, what was written is read again, and what was read is written as the same bytes.
#![tactic(auto)]

mod header;
mod laws;
mod read;
mod write;

pub use header::{Header, OMAGIC, TWO_ORDERS};
pub use laws::limits_are;
pub use read::read_header;
pub use write::{header_fits, header_laws, write_header};
