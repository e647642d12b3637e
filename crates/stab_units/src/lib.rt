//! What compilation units are read as: their files with all symbols, and their body. It stands on `unit_outlines`, which says where units
//! stand and is exported again, and on the parser of stab strings.
//!
//! The law that the layers above use: each unit of an outline is read as one value, or has one first fault of a string; and so are the
//! entries of an object.
#![tactic(auto)]

mod joined;
mod laws;
mod reader;
mod reading;
mod symbols;
mod unit;

pub use laws::{
    changed_law, few_units, header_units_law, header_values_law, joined_law, one_spans, one_unit,
    one_units,
};
pub use reading::{read_spans, read_unit, units};
pub use symbols::is_type;
pub use unit::{HeaderFile, Item, ItemText, Unit};
pub use unit_outlines::{
    HEADER_LIMIT, HeaderMark, Link, Marks, Nest, Nesting, STRING_LIMIT, SourceMark, Stack,
    UnitSpan, closing_law, few_spans, file_law, goes_on, is_header, is_plain, limits_are,
    one_outline, outline, piece,
};
