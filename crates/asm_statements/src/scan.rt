ghost use Rattle.std.specs.Prelude.{◌≡◌, [], Some, ◌<◌, ◌≤◌, length, IfOk, IfErr, OnOk};
ghost use Rattle.std.specs.List.{prefix_len};
ghost use Rattle.asm_statements.specs.Scanning as scan;
ghost use Rattle.asm_statements.specs.Scanning.{Refuses, Steps};
ghost use Rattle.asm_statements.specs.Tokens as spec;
ghost use Rattle.asm_statements.specs.Tokens.Token.{Str};

use crate::token::{Quoted, Token};
use st_base::{List, Memory, Text};
use std::alloc::Global;

// A string of so many bytes does not grow while it is read.
const SHORT_STRING: usize = 64;

/// Why a line is not read: it does not parse, or memory ran out.
#[derive(Clone, Copy, Drop)]
pub enum Bad {
    Form,
    Memory,
}

impl From<Memory> for Bad {
    ghost use Rattle.std.specs.Prelude.{◌≡◌};
    ghost use Rattle.asm_statements.specs.declared.scan.Bad.TheVariants as bad;

    ghost from_gives = { λ _ e. e ≡ bad.Memory };

    fn from(_memory: Memory) -> Bad {
        Bad::Memory
    }
}

fn is_digit(b: u8) -> bool
    ensures { result ≡ spec.is_digit b }
{
    b'0' <= b && b <= b'9'
}

pub(crate) fn begins_name(b: u8) -> bool
    ensures { result ≡ spec.begins_name b }
{
    b'A' <= b && b <= b'Z' || b'a' <= b && b <= b'z' || b == b'_' || b == b'$'
}

fn in_word(b: u8) -> bool
    ensures { result ≡ spec.in_word b }
{
    begins_name(b) || is_digit(b) || b == b'.'
}

fn is_blank(b: u8) -> bool
    ensures { result ≡ spec.is_blank b }
{
    b == b' ' || b == b'\t'
}

fn is_octal(b: u8) -> bool
    ensures { result ≡ spec.is_octal b }
{
    b'0' <= b && b <= b'7'
}

// How many bytes of a word stand in front.
fn word_end(bytes: &[u8]) -> usize
    ensures value { result ≡ prefix_len spec.in_word bytes.now }
    ensures within { result ≤ length bytes.now }
{
    for (i, b) in bytes.iter().enumerate() {
        if !in_word(*b) {
            return i;
        }
    }
    bytes.len()
}

// What a byte adds to a string, and where in the string the next byte stands; none after the closing `"`.
fn step_inside(text: &mut Text, byte: u8) -> Result<Option<Quoted>, Bad>
    ensures { Steps result text.new (scan.step_inside byte text.old) }
{
    if byte == b'"' {
        Ok(None)
    } else if byte == b'\\' {
        Ok(Some(Quoted::Escaped))
    } else {
        text.push(byte)?;
        Ok(Some(Quoted::Inside))
    }
}

fn put_byte(text: &mut Text, byte: u8) -> Result<Option<Quoted>, Bad>
    ensures { Steps result text.new (scan.put_step byte text.old) }
{
    text.push(byte)?;
    Ok(Some(Quoted::Inside))
}

fn step_done(text: &mut Text, value: u32, byte: u8) -> Result<Option<Quoted>, Bad>
    ensures { Steps result text.new (scan.step_done value byte text.old) }
{
    if value <= 255 {
        text.push(value as u8)?;
        step_inside(text, byte)
    } else {
        Err(Bad::Form)
    }
}

fn step_escaped(text: &mut Text, byte: u8) -> Result<Option<Quoted>, Bad>
    ensures { Steps result text.new (scan.step Quoted.Escaped byte text.old) }
{
    if is_octal(byte) {
        Ok(Some(Quoted::One(byte - b'0')))
    } else if byte == b'n' {
        put_byte(text, b'\n')
    } else if byte == b't' {
        put_byte(text, b'\t')
    } else if byte == b'\\' || byte == b'"' {
        put_byte(text, byte)
    } else {
        Err(Bad::Form)
    }
}

fn step_two(text: &mut Text, value: u32, byte: u8) -> Result<Option<Quoted>, Bad>
    ensures { Steps result text.new (scan.step (Quoted.Two value) byte text.old) }
{
    if is_octal(byte) {
        let value = 8 * u64::from(value) + u64::from(byte - b'0');
        if value <= 255 {
            put_byte(text, value as u8)
        } else {
            Err(Bad::Form)
        }
    } else {
        step_done(text, value, byte)
    }
}

fn step(text: &mut Text, quoted: Quoted, byte: u8) -> Result<Option<Quoted>, Bad>
    ensures { Steps result text.new (scan.step quoted byte text.old) }
{
    match quoted {
        Quoted::Inside => step_inside(text, byte),
        Quoted::Escaped => step_escaped(text, byte),
        Quoted::One(value) => {
            if is_octal(byte) {
                let value = 8 * u32::from(value) + u32::from(byte - b'0');
                Ok(Some(Quoted::Two(value)))
            } else {
                step_done(text, u32::from(value), byte)
            }
        }
        Quoted::Two(value) => step_two(text, value, byte),
    }
}

// An empty text with room for a short string before these bytes.
fn text_before(alloc: Global, bytes: &[u8]) -> Result<Text, Memory>
    ensures { IfOk result (λ t. t ≡ []) }
{
    let mut text = Text::of(alloc, &bytes[..bytes.len().min(SHORT_STRING)])?;
    text.cut(0);
    Ok(text)
}

// The string after a `"`, and what stands after it.
fn string_at(alloc: Global, bytes: &[u8]) -> Result<(Text, &[u8]), Bad>
    ensures read { IfOk result (λ x. spec.read_in spec.inside bytes.now ≡ spec.with_token (Str x.0) (spec.tokens x.1.now)) }
    ensures refused { IfErr result (λ e. Refuses e (spec.read_in spec.inside bytes.now)) }
    ensures shorter { IfOk result (λ x. length x.1.now ≤ length bytes.now) }
{
    let mut text = text_before(alloc, bytes)?;
    let mut quoted = Quoted::Inside;
    let mut rest = bytes;
    while let [byte, more @ ..] = rest {
        match step(&mut text, quoted, *byte)? {
            Some(next) => {
                quoted = next;
                rest = more;
            }
            None => return Ok((text, more)),
        }
    }
    Err(Bad::Form)
}

// A token, a blank or a comment, and what stands after it.
fn take_token<'a>(alloc: Global, bytes: &'a [u8]) -> Result<(Option<Token<'a>>, &'a [u8]), Bad>
    requires { 0 < length bytes.now }
    ensures read { IfOk result (λ x. spec.tokens bytes.now ≡ scan.with_maybe x.0 (spec.tokens x.1.now)) }
    ensures refused { IfErr result (λ e. Refuses e (spec.tokens bytes.now)) }
    ensures shorter { IfOk result (λ x. length x.1.now < length bytes.now) }
{
    let byte = bytes[0];
    if is_blank(byte) {
        return Ok((None, &bytes[1..]));
    }
    if byte == b'#' {
        return Ok((None, &bytes[..0]));
    }
    if byte == b'"' {
        let (text, behind) = string_at(alloc, &bytes[1..])?;
        return Ok((Some(Token::string(text)), behind));
    }
    if in_word(byte) {
        let end = word_end(&bytes[1..]) + 1;
        let (word, behind) = bytes.split_at(end);
        return Ok((Some(Token::word(word)), behind));
    }
    Ok((Some(Token::mark(byte)), &bytes[1..]))
}

/// The tokens of a line, in place of those that stood in the list. Refused where a string is not closed and where an escape is of no
/// form. Takes memory for the list and for each string.
pub fn read_tokens<'a>(
    alloc: Global,
    line: &'a [u8],
    tokens: &mut List<Token<'a>>,
) -> Result<(), Bad>
    ensures read { OnOk result (spec.tokens line.now ≡ Some tokens.new) }
    ensures refused { IfErr result (λ e. Refuses e (spec.tokens line.now)) }
{
    tokens.cut(0);
    let mut rest = line;
    while !rest.is_empty() {
        let (token, behind) = take_token(alloc, rest)?;
        if let Some(token) = token {
            tokens.push(token)?;
        }
        rest = behind;
    }
    Ok(())
}
