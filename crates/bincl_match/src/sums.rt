//! The sum of a file's symbols.

ghost use Rattle.std.specs.Prelude.{◌≡◌, ◌+◌, ◌<◌, ◌%◌, ◌^◌, ◌&&◌, false, flat_map, sum, IfOk};
ghost use Rattle.std.specs.Char as char;
ghost use Rattle.bincl_match.specs.HeaderSums as spec;
ghost use Rattle.bincl_match.specs.HeaderSums.{counted, without_files};

use st_base::{Memory, Text};
use stab_grammar::{Symbol, print};
use std::alloc::Global;

// Whether a byte is a digit of the number of a file, where the bytes before it from the last `(` on are digits or none.
fn is_skipped(behind: bool, byte: u8) -> bool
    ensures { result ≡ (behind && char.is_ascii_digit byte) }
{
    behind && byte.is_ascii_digit()
}

// The sum with the bytes of a spelling that count.
fn with_bytes(start: u32, bytes: &[u8]) -> u32
    ensures { result ≡ (start + sum (without_files false bytes.now)) % 2 ^ 32 }
{
    let mut total = start;
    let mut behind = false;
    for byte in bytes {
        if is_skipped(behind, *byte) {
            continue;
        }
        behind = *byte == b'(';
        total = total.wrapping_add(*byte as u32);
    }
    total
}

// The sum with a symbol.
fn with_symbol(alloc: Global, start: u32, symbol: &Symbol) -> Result<u32, Memory>
    ensures { IfOk result (λ s. s ≡ (start + sum (counted symbol.now)) % 2 ^ 32) }
{
    let mut text = Text::new(alloc);
    print(symbol, &mut text)?;
    Ok(with_bytes(start, text.bytes()))
}

/// The sum of the bytes of symbols that count, modulo 2^32.
pub(crate) fn sum_of(alloc: Global, symbols: &[Symbol]) -> Result<u32, Memory>
    ensures { IfOk result (λ s. s ≡ spec.sum_of symbols.now) }
{
    let mut total = 0u32;
    for symbol in symbols {
        total = with_symbol(alloc, total, symbol)?;
    }
    Ok(total)
}
