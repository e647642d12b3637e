// The limits of operands, this project's own but for that of symbols; code, clauses and tests use the names.

/// The most bytes that one `.space` takes.
pub const SPACE_LIMIT: u64 = 16_777_216;
/// How many symbols a relocation can name: its number has 24 bits, after a.out(5).
pub const SYMBOL_LIMIT: u64 = 16_777_216;
/// The greatest power of two that `.p2align` takes.
pub const GREATEST_POWER: u64 = 12;
