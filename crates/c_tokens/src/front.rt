//! What stands in front of a source, and how many bytes it takes.

ghost use Rattle.std.specs.Prelude.{◌≡◌, ◌≤◌, ◌<◌, ◌+◌, length, drop, get_or, false, option_map, IfSome};
ghost use Rattle.std.specs.List.{prefix_len, list_all};
ghost use Rattle.c_tokens.specs.Fronts as spec;
ghost use Rattle.c_tokens.specs.Pieces.{piece_of, GivesFront};

use crate::kind::Kind;
use crate::piece::{Piece, mark, named};

// The largest number of a source.
const LARGEST: u64 = 2147483647;

pub(crate) fn is_blank(b: u8) -> bool
    ensures { result ≡ spec.is_blank b }
{
    b == b' ' || b == b'\t'
}

fn is_digit(b: u8) -> bool
    ensures { result ≡ spec.is_digit b }
{
    b'0' <= b && b <= b'9'
}

fn begins_name(b: u8) -> bool
    ensures { result ≡ spec.begins_name b }
{
    b'A' <= b && b <= b'Z' || b'a' <= b && b <= b'z' || b == b'_'
}

fn in_name(b: u8) -> bool
    ensures { result ≡ spec.in_name b }
{
    begins_name(b) || is_digit(b)
}

// How many bytes of a name stand in front.
fn name_len(bytes: &[u8]) -> usize
    ensures value { result ≡ prefix_len spec.in_name bytes.now }
    ensures within { result ≤ length bytes.now }
{
    bytes.iter().take_while(|b| in_name(**b)).count()
}

// How many digits stand in front.
fn digits_len(bytes: &[u8]) -> usize
    ensures value { result ≡ prefix_len spec.is_digit bytes.now }
    ensures within { result ≤ length bytes.now }
{
    bytes.iter().take_while(|b| is_digit(**b)).count()
}

// How many blanks stand in front.
fn blanks_len(bytes: &[u8]) -> usize
    ensures value { result ≡ prefix_len spec.is_blank bytes.now }
    ensures within { result ≤ length bytes.now }
{
    bytes.iter().take_while(|b| is_blank(**b)).count()
}

// How many bytes stand before the first `"`.
fn quoted_len(bytes: &[u8]) -> usize
    ensures value { result ≡ prefix_len spec.is_no_quote bytes.now }
    ensures within { result ≤ length bytes.now }
{
    bytes.iter().take_while(|b| **b != b'"').count()
}

// How many bytes stand before the end of the line.
fn line_len(bytes: &[u8]) -> usize
    ensures value { result ≡ prefix_len spec.is_no_line_feed bytes.now }
    ensures within { result ≤ length bytes.now }
{
    bytes.iter().take_while(|b| **b != b'\n').count()
}

// The number of digits, if it is not over the largest one.
fn number_of(digits: &[u8]) -> Option<u32>
    ensures { result ≡ spec.small_number (spec.number_after 0 digits.now) }
{
    let mut number = 0;
    for digit in digits {
        number = 10 * number + u64::from(digit.saturating_sub(b'0'));
        if number > LARGEST {
            return None;
        }
    }
    Some(number as u32)
}

// A longest run of digits, which stands in front.
fn numeral<'a>(digits: &[u8]) -> Piece<'a>
    ensures { piece_of result ≡ spec.numeral digits.now }
{
    if digits == b"0".as_slice() {
        return mark(Kind::Zero);
    }
    if let [b'0', ..] = digits {
        return mark(Kind::Bad);
    }
    match number_of(digits) {
        Some(number) => Piece::Plain(Kind::Number, &[], number),
        None => mark(Kind::Bad),
    }
}

// How many bytes there are up to the end of the first `*/`.
fn comment_end(bytes: &[u8]) -> Option<usize>
    ensures value { result ≡ spec.comment_end false bytes.now }
    ensures within { IfSome result (λ n. n ≤ length bytes.now) }
{
    let mut star = false;
    for (at, byte) in bytes.iter().enumerate() {
        if star && *byte == b'/' {
            return Some(at + 1);
        }
        star = *byte == b'*';
    }
    None
}

fn opens_comment(byte: u8, rest: &[u8]) -> bool
    ensures { result ≡ spec.opens_comment byte rest.now }
{
    byte == b'/' && !rest.is_empty() && rest[0] == b'*'
}

// A comment, or one that is not closed, behind its `/`.
fn comment<'a>(rest: &'a [u8]) -> (Option<Piece<'a>>, usize)
    requires { 0 < length rest.now }
    ensures front { GivesFront result.0 result.1 (spec.comment rest.now) }
    ensures within { result.1 ≤ 1 + length rest.now }
{
    match comment_end(&rest[1..]) {
        Some(end) => (None, end + 2),
        None => (Some(mark(Kind::Bad)), rest.len() + 1),
    }
}

fn are_blanks(bytes: &[u8]) -> bool
    ensures { result ≡ list_all spec.is_blank bytes.now }
{
    bytes.iter().all(|b| is_blank(*b))
}

// A name up to the `"` behind it, if only blanks stand between that and the end of the line.
fn closed<'a>(rest: &'a [u8]) -> Option<&'a [u8]>
    ensures { option_map (λ name. name.now) result ≡ spec.closed (spec.run spec.is_no_quote rest.now) (spec.behind_run spec.is_no_quote rest.now) }
{
    let (name, behind) = rest.split_at(quoted_len(rest));
    if behind.is_empty() || name.is_empty() || !are_blanks(&behind[1..]) {
        return None;
    }
    Some(name)
}

// The name of the file, if the rest of a line behind `#` is an include's.
fn include_name<'a>(line: &'a [u8]) -> Option<&'a [u8]>
    ensures { option_map (λ name. name.now) result ≡ spec.include_name line.now }
{
    let rest = line.strip_prefix(b"include".as_slice())?;
    let quoted = &rest[blanks_len(rest)..];
    if quoted.is_empty() || quoted[0] != b'"' {
        return None;
    }
    closed(&quoted[1..])
}

// The line of an include behind its `#`, or a `#` alone.
fn include<'a>(rest: &'a [u8], fresh: bool) -> (Option<Piece<'a>>, usize)
    ensures front { GivesFront result.0 result.1 (spec.include fresh rest.now) }
    ensures within { result.1 ≤ 1 + length rest.now }
{
    if !fresh {
        return (Some(mark(Kind::Bad)), 1);
    }
    let end = line_len(rest);
    match include_name(&rest[..end]) {
        Some(name) => (Some(Piece::Plain(Kind::Include, name, 0)), end + 1),
        None => (Some(mark(Kind::Bad)), 1),
    }
}

fn mark_of(byte: u8) -> Kind
    ensures { result ≡ spec.mark_of byte }
{
    match byte {
        b'{' => Kind::OpenBrace,
        b'}' => Kind::CloseBrace,
        b'(' => Kind::OpenParen,
        b')' => Kind::CloseParen,
        b'[' => Kind::OpenBracket,
        b']' => Kind::CloseBracket,
        b';' => Kind::Semi,
        b',' => Kind::Comma,
        b'*' => Kind::Star,
        b'=' => Kind::Equals,
        b'-' => Kind::Minus,
        _ => Kind::Bad,
    }
}

// A name or word in front.
fn name<'a>(bytes: &'a [u8]) -> (Option<Piece<'a>>, usize)
    requires { 0 < length bytes.now }
    ensures front { GivesFront result.0 result.1 (spec.name (get_or bytes.now 0 0) (drop 1 bytes.now)) }
    ensures within { result.1 ≤ length bytes.now }
{
    let size = name_len(&bytes[1..]) + 1;
    (Some(named(&bytes[..size])), size)
}

// A number in front.
fn digits<'a>(bytes: &'a [u8]) -> (Option<Piece<'a>>, usize)
    requires { 0 < length bytes.now }
    ensures front { GivesFront result.0 result.1 (spec.digits (get_or bytes.now 0 0) (drop 1 bytes.now)) }
    ensures within { result.1 ≤ length bytes.now }
{
    let size = digits_len(&bytes[1..]) + 1;
    (Some(numeral(&bytes[..size])), size)
}

/// What stands in front of bytes: the piece that it gives, if it gives one, and how many bytes it takes. `fresh`: only blanks stand
/// before it on its line. Takes no memory.
pub(crate) fn front<'a>(bytes: &'a [u8], fresh: bool) -> (Option<Piece<'a>>, usize)
    requires { 0 < length bytes.now }
    ensures front { GivesFront result.0 result.1 (spec.front_of fresh (get_or bytes.now 0 0) (drop 1 bytes.now)) }
    ensures within { result.1 ≤ length bytes.now }
{
    let byte = bytes[0];
    if is_blank(byte) || byte == b'\n' {
        return (None, 1);
    }
    if begins_name(byte) {
        return name(bytes);
    }
    if is_digit(byte) {
        return digits(bytes);
    }
    let rest = &bytes[1..];
    if opens_comment(byte, rest) {
        return comment(rest);
    }
    if byte == b'#' {
        return include(rest, fresh);
    }
    (Some(mark(mark_of(byte))), 1)
}
