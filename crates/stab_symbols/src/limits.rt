//! The limits of stab strings, this project's own.

ghost use Rattle.std.specs.Prelude.{◌≡◌};
ghost use Rattle.stab_symbols.specs.declared.limits.TheConstants as the;

/// The greatest type number, size and bit position.
pub const GREATEST_NUMBER: u32 = 2147483647;

/// The greatest file of a type number.
pub const GREATEST_FILE: u32 = 65535;

/// Stands for a file that a list of files does not have; it is greater than every file.
pub(crate) const NO_FILE: u32 = 65536;

/// The most digits of a numeral.
pub const MOST_DIGITS: usize = 40;

/// How many types may stand inside one another, the outermost included.
pub const GREATEST_DEPTH: usize = 100;

/// The limits as numbers.
pub fn limits_are()
    ensures number { the.GREATEST_NUMBER ≡ 2147483647 }
    ensures file { the.GREATEST_FILE ≡ 65535 }
    ensures no_file { the.NO_FILE ≡ 65536 }
    ensures digits { the.MOST_DIGITS ≡ 40 }
    ensures depth { the.GREATEST_DEPTH ≡ 100 }
{}
