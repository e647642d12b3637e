//! How the answers of calls are written: words with a blank between two of them, on lines.

use itoa::Buffer;
use st_base::{Fault, Memory, Text};

fn is_fresh(text: &[u8]) -> bool {
    matches!(text, [] | [.., b'\n'])
}

/// Appends a word.
pub fn put_word(word: &[u8], out: &mut Text) -> Result<(), Memory> {
    if !is_fresh(out.bytes()) {
        out.push(b' ')?;
    }
    out.extend(word)
}

/// Appends a name as a word, `-` where it is empty.
pub fn put_name(name: &[u8], out: &mut Text) -> Result<(), Memory> {
    put_word(if name.is_empty() { b"-" } else { name }, out)
}

/// Appends a name as the last word of a line.
pub fn put_last_name(name: &[u8], out: &mut Text) -> Result<(), Memory> {
    put_name(name, out)?;
    end_line(out)
}

/// Appends the number of the first entry and that behind the last one.
pub fn put_extent(first: u64, past: u64, out: &mut Text) -> Result<(), Memory> {
    put_number(first, out)?;
    put_number(past, out)
}

/// Appends the address of a start and that of an end.
pub fn put_bounds(start: u32, end: u32, out: &mut Text) -> Result<(), Memory> {
    put_hex8(start, out)?;
    put_hex8(end, out)
}

/// Appends a number in decimal.
pub fn put_number(number: u64, out: &mut Text) -> Result<(), Memory> {
    let mut buffer = Buffer::new();
    put_word(buffer.format(number).as_bytes(), out)
}

fn put_byte(byte: u8, out: &mut Text) -> Result<(), Memory> {
    let digits = b"0123456789abcdef";
    out.push(digits[usize::from(byte / 16)])?;
    out.push(digits[usize::from(byte % 16)])
}

/// Appends a number as two hexadecimal digits.
pub fn put_hex2(number: u8, out: &mut Text) -> Result<(), Memory> {
    put_word(b"", out)?;
    put_byte(number, out)
}

/// Appends a number as eight hexadecimal digits.
pub fn put_hex8(number: u32, out: &mut Text) -> Result<(), Memory> {
    put_word(b"", out)?;
    for byte in number.to_be_bytes() {
        put_byte(byte, out)?;
    }
    Ok(())
}

/// Ends the line.
pub fn end_line(out: &mut Text) -> Result<(), Memory> {
    out.push(b'\n')
}

/// Appends a line.
pub fn put_line(line: &[u8], out: &mut Text) -> Result<(), Memory> {
    out.extend(line)?;
    end_line(out)
}

/// Appends each of these lines behind two blanks.
pub fn put_lines(text: &[u8], out: &mut Text) -> Result<(), Memory> {
    for line in text.split(|b| *b == b'\n') {
        if !line.is_empty() {
            out.extend(b"  ")?;
            put_line(line, out)?;
        }
    }
    Ok(())
}

/// Appends the line of a fault.
pub fn put_fault(fault: &Fault, out: &mut Text) -> Result<(), Memory> {
    out.extend(b"  refused")?;
    put_number(u64::from(fault.number), out)?;
    put_number(fault.place, out)?;
    put_number(fault.within, out)?;
    end_line(out)
}
