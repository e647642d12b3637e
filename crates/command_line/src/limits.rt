/// The most bytes of one object of a list. This limit is this project's own.
pub const OBJECT_LIMIT: u64 = 16_777_216;
/// The most names of files that a command reads. This limit is this project's own.
pub const MOST_NAMES: u64 = 1_024;
