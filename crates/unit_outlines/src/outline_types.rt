use st_base::{List, Text};

/// Which marks of headers a list may have: those of an object, or also those of an image, in which headers are excluded.
#[derive(Clone, Copy, Debug, Drop, PartialEq, Eq)]
pub enum Marks {
    Object,
    Image,
}

/// The mark of a header: an N_BINCL with the entries up to its N_EINCL, or an N_EXCL alone.
#[derive(Debug, Drop)]
pub struct HeaderMark {
    pub name: Text,
    /// The number of the mark's entry.
    pub first: u64,
    /// The number after its N_EINCL; after the mark itself where it is an N_EXCL.
    pub past: u64,
    /// Whether it is an N_EXCL.
    pub excluded: bool,
    pub value: u32,
}

/// Where a unit stands in an entry list.
#[derive(Debug, Drop)]
pub struct UnitSpan {
    /// The name of its directory mark, if it has one, and its own.
    pub name: Text,
    /// The address at which it starts.
    pub start: u32,
    /// The address after it.
    pub end: u32,
    /// The number of its N_SO.
    pub first: u64,
    /// The number after its entries: that of the next unit's N_SO or directory mark, or the number of all entries.
    pub past: u64,
    /// Its headers, in order; the first has the number 1.
    pub headers: List<HeaderMark>,
}
