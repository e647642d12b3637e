ghost use Rattle.std.specs.Prelude.{◌≡◌, ◌<◌, ◌≤◌, length};
ghost use Rattle.query_text.specs.QueryWords as spec;

use st_base::digit_value;

/// The most digits of an address.
pub const MOST_DIGITS: usize = 8;

// The number that hexadecimal digits spell.
fn number_of(digits: &[u8]) -> Option<u32>
    requires { length digits.now ≤ 8 }
    ensures { result ≡ spec.digits_on 0 digits.now }
{
    let mut value = 0u32;
    for digit in digits {
        let next = digit_value(*digit)?;
        value = 16 * value + next;
    }
    Some(value)
}

/// The address that a word spells: `0x` and 1 to 8 hexadecimal digits of either case. Takes no memory.
pub fn address_of(word: &[u8]) -> Option<u32>
    ensures { result ≡ spec.spelled_address word.now }
{
    match word {
        [b'0', b'x', digits @ ..] => {
            if digits.is_empty() || digits.len() > MOST_DIGITS {
                None
            } else {
                number_of(digits)
            }
        }
        _ => None,
    }
}
