//! Numbers as they are printed, and the digits that spell them.

ghost use Rattle.std.specs.Prelude.{◌≡◌, ◌++◌, ◌<◌, decimal, OnOk, IfSome};
ghost use Rattle.st_base.specs.Numerals as spec;
ghost use Rattle.st_base.specs.Shown.{hex_digit as digit_of};

use crate::fault::Memory;
use crate::text::Text;
use itoa::Buffer;

/// A hexadecimal digit, in lower case. Takes no memory.
pub(crate) fn hex_digit(n: u8) -> u8
    requires { n < 16 }
    ensures { result ≡ digit_of n }
{
    if n < 10 { b'0' + n } else { b'a' - 10 + n }
}

/// The value of a hexadecimal digit of either case; `None` exactly for every other byte. Takes no memory.
pub fn digit_value(byte: u8) -> Option<u32>
    ensures value { result ≡ spec.digit_value byte }
    ensures low { IfSome result (λ value. value < 16) }
{
    match byte {
        b'0'..=b'9' => Some(u32::from(byte - b'0')),
        b'a'..=b'f' => Some(u32::from(byte - b'a' + 10)),
        b'A'..=b'F' => Some(u32::from(byte - b'A' + 10)),
        _ => None,
    }
}

/// Appends the digits of a number in decimal.
pub fn put_number(number: u64, out: &mut Text) -> Result<(), Memory>
    ensures { OnOk result (out.new ≡ out.old ++ decimal number) }
{
    let mut buffer = Buffer::new();
    out.extend(buffer.format(number).as_bytes())
}

// The digit of a number that is worth so much, a power of 16.
fn digit_at(number: u32, worth: u32) -> u8
    requires { 0 < worth }
    ensures { result ≡ spec.digit_worth worth number }
{
    hex_digit((number / worth % 16) as u8)
}

/// Appends a byte as two hexadecimal digits in lower case.
#[tactic(auto, unfolding(crate::specs::Numerals::hex2))]
pub fn put_hex2(number: u8, out: &mut Text) -> Result<(), Memory>
    ensures { OnOk result (out.new ≡ out.old ++ spec.hex2 number) }
{
    let number = u32::from(number);
    out.extend(&[digit_at(number, 0x10), digit_at(number, 1)])
}

/// Appends a number as four hexadecimal digits in lower case.
#[tactic(auto, unfolding(crate::specs::Numerals::hex4))]
pub fn put_hex4(number: u16, out: &mut Text) -> Result<(), Memory>
    ensures { OnOk result (out.new ≡ out.old ++ spec.hex4 number) }
{
    let number = u32::from(number);
    let digits = [
        digit_at(number, 0x1000),
        digit_at(number, 0x100),
        digit_at(number, 0x10),
        digit_at(number, 1),
    ];
    out.extend(&digits)
}

/// Appends a number as eight hexadecimal digits in lower case.
#[tactic(auto, unfolding(crate::specs::Numerals::hex8))]
pub fn put_hex8(number: u32, out: &mut Text) -> Result<(), Memory>
    ensures { OnOk result (out.new ≡ out.old ++ spec.hex8 number) }
{
    let digits = [
        digit_at(number, 0x1000_0000),
        digit_at(number, 0x100_0000),
        digit_at(number, 0x10_0000),
        digit_at(number, 0x1_0000),
        digit_at(number, 0x1000),
        digit_at(number, 0x100),
        digit_at(number, 0x10),
        digit_at(number, 1),
    ];
    out.extend(&digits)
}
