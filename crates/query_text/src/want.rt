//! What the places of a query's words want, and the numbers that they spell.

ghost use Rattle.std.specs.Prelude.{◌≡◌};
ghost use Rattle.query_text.specs.QueryWords as spec;

use crate::address::address_of;
use crate::places::Wanted;
use readers::whole_number;

/// The greatest number in a query.
pub const GREATEST_NUMBER: u32 = u32::MAX;
/// The greatest number of a line in a query.
pub const GREATEST_LINE: u32 = 65_535;

/// The word that a query begins with; it says of which form the query is.
#[derive(Clone, Copy, Debug, Drop, PartialEq, Eq)]
pub enum Keyword {
    Units,
    Files,
    Tag,
    Type,
    Number,
    Scope,
    Line,
    Addresses,
}

/// What a place of a query's words wants. Wherever it stands, a word that is not UTF-8 is not wanted.
#[derive(Clone, Copy, Debug, Drop, PartialEq, Eq)]
pub enum Want {
    /// This word.
    This(Keyword),
    /// Any word.
    Any,
    /// A decimal number without a leading zero, up to 4294967295.
    Number,
    /// The same, up to 65535.
    Line,
    /// `0x` and 1 to 8 hexadecimal digits.
    Address,
}

// The bytes of a keyword.
fn keyword_text(keyword: Keyword) -> &'static [u8]
    ensures { result.now ≡ spec.keyword_text keyword }
{
    match keyword {
        Keyword::Units => b"units",
        Keyword::Files => b"files",
        Keyword::Tag => b"tag",
        Keyword::Type => b"type",
        Keyword::Number => b"number",
        Keyword::Scope => b"scope",
        Keyword::Line => b"line",
        Keyword::Addresses => b"addresses",
    }
}

impl Wanted for Want {
    ghost use Rattle.query_text.specs.QueryWords.{is_wanted};

    ghost wants = { is_wanted };

    fn is_wanted(self, word: &[u8]) -> bool {
        match self {
            Want::This(keyword) => word == keyword_text(keyword),
            Want::Any => true,
            Want::Number => whole_number(GREATEST_NUMBER, word).is_some(),
            Want::Line => whole_number(GREATEST_LINE, word).is_some(),
            Want::Address => address_of(word).is_some(),
        }
    }
}

/// The number that a word spells; 0 where it spells none. Takes no memory.
pub fn number_of(word: &[u8]) -> u32
    ensures { result ≡ spec.number_of word.now }
{
    whole_number(GREATEST_NUMBER, word).unwrap_or(0)
}

/// The number of a line that a word spells; 0 where it spells none. Takes no memory.
pub fn line_of(word: &[u8]) -> u16
    ensures { result ≡ spec.line_of word.now }
{
    match whole_number(GREATEST_LINE, word) {
        Some(line) => line as u16,
        None => 0,
    }
}
