ghost use Rattle.std.specs.Prelude.{◌≡◌, ◌≤◌, ◌++◌, ◌∷◌, IfOk, IfSome};

use crate::answer::Odd;
use hex::FromHexError;
use st_base::{Memory, Order, Text, put_hex2};
use std::alloc::Global;

// The parts of a row, and what they spell.

/// A text as a message shows it.
pub fn shown(text: &[u8]) -> &str {
    match std::str::from_utf8(text) {
        Ok(text) => text,
        Err(_) => "a text that is not UTF-8",
    }
}

/// What stands before the first of this byte, and what behind it.
pub fn cut(text: &[u8], by: u8) -> Option<(&[u8], &[u8])>
    ensures { IfSome result (λ parts. text.now ≡ parts.0.now ++ (by ∷ parts.1.now)) }
{
    for at in 0..text.len() {
        if text[at] == by {
            return Some((&text[..at], &text[at + 1..]));
        }
    }
    None
}

/// The first word, and what stands behind the blank after it.
pub fn word(row: &[u8]) -> (&[u8], &[u8]) {
    match cut(row, b' ') {
        Some(parts) => parts,
        None => (row, &row[..0]),
    }
}

/// What stands before the first of these bytes, and what behind them.
pub fn halves<'a>(row: &'a [u8], by: &[u8]) -> Option<(&'a [u8], &'a [u8])> {
    for at in 0..row.len() {
        if row[at..].starts_with(by) {
            return Some((&row[..at], &row[at + by.len()..]));
        }
    }
    None
}

/// A text with digits for what stands between quotes, and without `_` and the ends of lines.
pub fn plain(alloc: Global, text: &[u8]) -> Result<Text, Memory> {
    let mut out = Text::new(alloc);
    let mut quoted = false;
    for b in text {
        if *b == b'\'' {
            quoted = !quoted;
        } else if quoted {
            put_hex2(*b, &mut out)?;
        } else if *b != b'_' && *b != b'\n' {
            out.push(*b)?;
        }
    }
    Ok(out)
}

/// The bytes that a word spells.
pub fn bytes_of(alloc: Global, spelled: &[u8]) -> Result<Text, Odd> {
    match spelled {
        [] => return Err(Odd::Row),
        [b'.'] => return Ok(Text::new(alloc)),
        _ => {}
    }
    let digits = plain(alloc, spelled)?;
    match hex::decode(alloc, digits.bytes()) {
        Ok(bytes) => Ok(Text::of(alloc, &bytes)?),
        Err(FromHexError::OutOfMemory) => Err(Odd::Memory),
        Err(_) => Err(Odd::Row),
    }
}

/// The number that a word spells, at most this one.
pub fn number_of(most: u64, spelled: &[u8]) -> Result<u64, Odd>
    ensures { IfOk result (λ number. number ≤ most) }
{
    let number = match spelled {
        [b'0', b'x', digits @ ..] => u64::from_str_radix(shown(digits), 16),
        digits => u64::from_str_radix(shown(digits), 10),
    };
    match number {
        Ok(number) if number <= most => Ok(number),
        _ => Err(Odd::Row),
    }
}

/// The order that a word names.
pub fn order_of(name: &[u8]) -> Result<Order, Odd> {
    match shown(name) {
        "little" => Ok(Order::Little),
        "big" => Ok(Order::Big),
        _ => Err(Odd::Row),
    }
}

/// Appends two digits for each byte.
pub fn put_digits(bytes: &[u8], out: &mut Text) -> Result<(), Memory> {
    for byte in bytes {
        put_hex2(*byte, out)?;
    }
    Ok(())
}
