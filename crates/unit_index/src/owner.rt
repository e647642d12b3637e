/// The number of no file, greater than that of every file: what `renumber` gives for a file that has no new one.
pub const NO_FILE: u32 = 65_536;

/// A header, and the header that opens the range for which it stands: itself, or for an excluded header the one of its name and
/// value. Units are counted from 0, the headers of a unit from 1.
#[derive(Clone, Copy, Debug, Drop, PartialEq, Eq)]
pub struct Owner {
    pub unit: u32,
    pub file: u32,
    pub owner_unit: u32,
    pub owner_file: u32,
}

/// A header: its unit, counted from 0, and its number in that unit, from 1.
#[derive(Clone, Copy, Debug, Drop, PartialEq, Eq)]
pub struct HeaderAt {
    pub unit: u32,
    pub file: u32,
}
