// The limits of units, this project's own.

/// The most bytes of one joined string.
pub const STRING_LIMIT: u64 = 1_048_576;
/// The most headers of one unit.
pub const HEADER_LIMIT: u64 = 65_535;
