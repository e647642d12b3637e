ghost use Rattle.std.specs.Prelude.{◌≡◌, ◌≤◌, ℕ, decimal, IfSome, IfNone};
ghost use Rattle.std.specs.Result.{result_ok};
ghost use Rattle.readers.specs.Readers.{whole_of};
ghost use Rattle.readers.specs.Words as words;

use crate::read::{digits_on, is_digit};

#[tactic(auto, unfolding(crate::specs::Words::number_at))]
fn read_whole(limit: u32, bytes: &[u8]) -> Option<u32>
    requires { 9 ≤ limit }
    ensures { result ≡ result_ok (whole_of (words.number_at limit) bytes.now) }
{
    let (value, rest) = match bytes {
        [] => return None,
        [b'0', rest @ ..] => (0, rest),
        [b, rest @ ..] => {
            if !is_digit(*b) {
                return None;
            }
            digits_on(limit, u32::from(*b - 48), rest)
        }
    };
    if rest.is_empty() { Some(value) } else { None }
}

/// The number that a whole text spells in decimal digits without a leading zero, at most `limit`. Takes no
/// memory.
pub fn whole_number(limit: u32, bytes: &[u8]) -> Option<u32>
    requires { 9 ≤ limit }
    ensures value { result ≡ result_ok (whole_of (words.number_at limit) bytes.now) }
    ensures found { IfSome result (λ n. (n ≤ limit) × (bytes.now ≡ decimal n)) }
    ensures none { IfNone result ((n : ℕ) → n ≤ limit → bytes.now ≡ decimal n → ⊥) }
{
    read_whole(limit, bytes)
}
