//! Words at places: where words are not what the places of a line want, whatever that is.

ghost use Rattle.std.specs.Prelude.{◌≡◌, ◌≤◌, ℕ, Bool, List, length, IfSome};
ghost use Rattle.query_text.specs.WordPlaces as spec;

use st_base::Text;
use std::str::from_utf8;

/// What a place of a line of words wants. Wherever it stands, a word that is not UTF-8 is not wanted.
pub trait Wanted: Copy {
    // Whether the word is what the place wants.
    ghost wants: { Self → List ℕ → Bool };

    /// Whether a word is what the place wants.
    fn is_wanted(self, word: &[u8]) -> bool
        ensures { result ≡ wants self word.now };
}

/// Whether a word is UTF-8. Takes no memory.
pub fn is_text(word: &Text) -> bool
    ensures { result ≡ spec.is_text word.now }
{
    from_utf8(word.bytes()).is_ok()
}

fn holds<W: Wanted>(want: W, word: &Text) -> bool
    ensures { result ≡ spec.holds W.wants want word.now }
{
    is_text(word) && want.is_wanted(word.bytes())
}

/// The first place whose word is not what is wanted there, the number of words where one is missing, or the place of the first
/// word too many; `None` where the words are what the places want. Takes no memory.
pub fn wrong_place<W: Wanted>(places: &[W], words: &[Text]) -> Option<usize>
    ensures place { result ≡ spec.wrong_place W.wants places.now words.now }
    ensures within { IfSome result (λ at. at ≤ length words.now) }
{
    for (at, want) in places.iter().enumerate() {
        match words.get(at) {
            None => return Some(at),
            Some(word) if holds(*want, word) => {}
            Some(_) => return Some(at),
        }
    }
    if places.len() < words.len() {
        Some(places.len())
    } else {
        None
    }
}
