//! How a row writes numbers, entries and words.

ghost use Rattle.std.specs.Prelude.{◌<◌, OnSome};

use nlist_codec::Named;
use st_base::{List, Memory, Text};
use std::alloc::Global;

/// What stands before the first such byte, and what behind it.
pub fn cut(row: &[u8], mark: u8) -> (&[u8], &[u8]) {
    for at in 0..row.len() {
        if row[at] == mark {
            return (&row[..at], &row[at + 1..]);
        }
    }
    (row, &row[..0])
}

fn digit(byte: u8) -> Option<u8> {
    match byte {
        b'0'..=b'9' => Some(byte - b'0'),
        b'a'..=b'f' => Some(byte - b'a' + 10),
        _ => None,
    }
}

/// The number at the front of a row, 0 where there is none.
pub fn number(base: u32, row: &[u8]) -> u32 {
    let mut number = 0_u32;
    for byte in row {
        match digit(*byte) {
            Some(digit) => number = number.wrapping_mul(base).wrapping_add(u32::from(digit)),
            None => return number,
        }
    }
    number
}

// The hexadecimal number behind a mark, 0 where the mark is not there.
fn marked(front: &[u8], mark: u8) -> u32 {
    let (_, behind) = cut(front, mark);
    number(16, behind)
}

fn as_byte(number: u32) -> u8 {
    match u8::try_from(number) {
        Ok(number) => number,
        Err(_) => 0,
    }
}

fn as_half(number: u32) -> u16 {
    match u16::try_from(number) {
        Ok(number) => number,
        Err(_) => 0,
    }
}

// An entry: its kind, behind `@` its value, behind `#` its desc and behind `!` its other, all in hexadecimal and what is left out 0,
// and behind `=` its name.
fn entry(alloc: Global, row: &[u8]) -> Result<Named, Memory> {
    let (front, name) = cut(row, b'=');
    Ok(Named {
        kind: as_byte(number(16, front)),
        other: as_byte(marked(front, b'!')),
        desc: as_half(marked(front, b'#')),
        value: marked(front, b'@'),
        name: Text::of(alloc, name)?,
    })
}

/// Appends the entry that the row spells.
pub fn push_one(alloc: Global, row: &[u8], entries: &mut List<Named>) -> Result<(), Memory> {
    entries.push(entry(alloc, row)?)
}

/// Appends each of these words as an entry.
pub fn push_entries(alloc: Global, row: &[u8], entries: &mut List<Named>) -> Result<(), Memory> {
    for word in row.split(|b| *b == b' ') {
        if !word.is_empty() {
            push_one(alloc, word, entries)?;
        }
    }
    Ok(())
}

/// Appends one entry as often as the row says in front of it.
pub fn push_many(alloc: Global, row: &[u8], entries: &mut List<Named>) -> Result<(), Memory> {
    let (times, row) = cut(row, b' ');
    for _ in 0..number(10, times) {
        push_one(alloc, row, entries)?;
    }
    Ok(())
}

// So many bytes x, and a name behind them.
fn long_name(alloc: Global, times: u32, name: &[u8]) -> Result<Text, Memory> {
    let mut long = Text::new(alloc);
    for _ in 0..times {
        long.push(b'x')?;
    }
    long.extend(name)?;
    Ok(long)
}

/// Appends an entry with as many bytes in front of its name as the row says.
pub fn push_long(alloc: Global, row: &[u8], entries: &mut List<Named>) -> Result<(), Memory> {
    let (times, row) = cut(row, b' ');
    let mut entry = entry(alloc, row)?;
    entry.name = long_name(alloc, number(10, times), entry.name.bytes())?;
    entries.push(entry)
}

/// The words of a row.
pub fn words_of(alloc: Global, row: &[u8]) -> Result<List<Text>, Memory> {
    let mut words = List::new(alloc);
    for word in row.split(|b| *b == b' ') {
        words.push(Text::of(alloc, word)?)?;
    }
    Ok(words)
}
