ghost use Rattle.std.specs.Prelude.{◌≡◌, ◌<◌, ◌≤◌, length, IfOk, Ok, Err};
ghost use Rattle.readers.specs.Readers as readers;
ghost use Rattle.readers.specs.Readers.{Gives};
ghost use Rattle.readers.specs.Words as words;

use crate::stop::{Refusal, Stop};
use st_base::Text;
use std::alloc::Global;

/// `0` to `9`. Takes no memory.
pub fn is_digit(b: u8) -> bool
    ensures { result ≡ words.is_digit b }
{
    48 <= b && b <= 57
}

/// The refusal of the first byte of what is left. Takes no memory.
pub fn bad(bytes: &[u8]) -> Refusal
    ensures { result ≡ Refusal.At (Stop.Bad (length bytes.now)) }
{
    Refusal::At(Stop::Bad(bytes.len()))
}

/// The byte `b`, and what stands after it. Takes no memory.
pub fn byte_at(b: u8, bytes: &[u8]) -> Result<((), &[u8]), Refusal>
    ensures { Gives (λ x. (tt, x.1.now)) result (readers.byte_at b bytes.now) }
{
    match bytes {
        [] => Err(Refusal::At(Stop::End)),
        [c, rest @ ..] => {
            if *c == b {
                Ok(((), rest))
            } else {
                Err(bad(bytes))
            }
        }
    }
}

#[tactic(auto, unfolding(crate::specs::Words::digits_on))]
pub(crate) fn digits_on(limit: u32, first: u32, bytes: &[u8]) -> (u32, &[u8])
    requires { first ≤ limit }
    ensures { words.digits_on limit first bytes.now ≡ (result.0, result.1.now) }
{
    let mut value = first;
    let mut rest = bytes;
    while let [b, more @ ..] = rest {
        if !is_digit(*b) {
            break;
        }
        let next = 10 * u64::from(value) + u64::from(*b - 48);
        if next > u64::from(limit) {
            break;
        }
        value = next as u32;
        rest = more;
    }
    (value, rest)
}

/// A decimal number without a leading zero, at most `limit`, and what stands after it: a digit that would
/// exceed the limit stands there too. Takes no memory.
#[tactic(auto, unfolding(crate::specs::Words::number_at))]
pub fn number_at(limit: u32, bytes: &[u8]) -> Result<(u32, &[u8]), Refusal>
    requires { 9 ≤ limit }
    ensures { Gives (λ x. (x.0, x.1.now)) result (words.number_at limit bytes.now) }
{
    match bytes {
        [] => Err(Refusal::At(Stop::End)),
        [b'0', rest @ ..] => Ok((0, rest)),
        [b, rest @ ..] => {
            if is_digit(*b) {
                Ok(digits_on(limit, u32::from(*b - 48), rest))
            } else {
                Err(bad(bytes))
            }
        }
    }
}

/// A number and the byte `b` after it. Takes no memory.
pub fn number_and(limit: u32, b: u8, bytes: &[u8]) -> Result<(u32, &[u8]), Refusal>
    requires { 9 ≤ limit }
    ensures { Gives (λ x. (x.0, x.1.now)) result (readers.closed (words.number_at limit) b bytes.now) }
{
    let (number, rest) = number_at(limit, bytes)?;
    let (_, rest) = byte_at(b, rest)?;
    Ok((number, rest))
}

/// The name up to the byte `end`, and what stands after that byte. A zero byte is refused, and `barred` too; for
/// no further byte it is 0. Takes no memory.
#[tactic(auto, unfolding(crate::specs::Words::name_at))]
pub fn name_at(end: u8, barred: u8, bytes: &[u8]) -> Result<(&[u8], &[u8]), Refusal>
    ensures { Gives (λ x. (x.0.now, x.1.now)) result (words.name_at (words.not_in_name barred) end bytes.now) }
{
    for at in 0..bytes.len() {
        let b = bytes[at];
        if b == end {
            return Ok((&bytes[..at], &bytes[at + 1..]));
        }
        if b == 0 || b == barred {
            return Err(bad(&bytes[at..]));
        }
    }
    Err(Refusal::At(Stop::End))
}

/// A run of 1 to `more + 1` digits, and what stands after it. Takes no memory.
#[tactic(auto, unfolding(crate::specs::Words::run_at, crate::specs::Words::run_on))]
pub fn digits_at(more: usize, bytes: &[u8]) -> Result<(&[u8], &[u8]), Refusal>
    ensures { Gives (λ x. (x.0.now, x.1.now)) result (words.run_at words.is_digit more bytes.now) }
{
    match bytes {
        [] => Err(Refusal::At(Stop::End)),
        [first, ..] => {
            if !is_digit(*first) {
                return Err(bad(bytes));
            }
            let mut at = 1;
            while at <= more && at < bytes.len() && is_digit(bytes[at]) {
                at += 1;
            }
            Ok((&bytes[..at], &bytes[at..]))
        }
    }
}

/// A text of its own with the same bytes.
pub fn text_of(alloc: Global, bytes: &[u8]) -> Result<Text, Refusal>
    ensures value { IfOk result (λ t. t ≡ bytes.now) }
    ensures memory { (e : Refusal) → result ≡ Err e → e ≡ Refusal.Memory }
{
    Ok(Text::of(alloc, bytes)?)
}
