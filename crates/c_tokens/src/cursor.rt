ghost use Rattle.std.specs.Prelude.{◌≡◌, ◌<◌, ◌^◌, length};
ghost use Rattle.c_tokens.specs.Pieces.{Takes};
ghost use Rattle.c_tokens.specs.Scanning as spec;

use crate::kind::Kind;
use crate::piece::Piece;
use crate::pieces::Pieces;
use crate::token::Token;
use std::marker::Model;

/// Where reading stands in a source, token by token. Contracts see the tokens that are left.
///
/// A byte is looked at a few times at most, however long the source is. No call takes memory.
#[derive(Drop)]
pub struct Cursor<'a> {
    pieces: Pieces<'a>,
}

impl<'a> Model for Cursor<'a> {
    ghost use Rattle.std.specs.Prelude.{List, false};
    ghost use Rattle.c_tokens.specs.Tokens.{Token};
    ghost use Rattle.c_tokens.specs.Scanning as spec;

    ghost Value = { List Token };

    ghost view = { λ c. spec.merged false c.pieces };
}

// The token of a longest run of words of basic types, which spells this one.
fn basic_token<'a>(basic_type: Option<u32>, line: u64) -> Token<'a>
    ensures { result ≡ spec.basic_token basic_type line }
{
    let (kind, number) = match basic_type {
        Some(number) => (Kind::Basic, number),
        None => (Kind::Bad, 0),
    };
    Token {
        kind,
        bytes: &[],
        number,
        line,
    }
}

impl<'a> Cursor<'a> {
    /// The tokens of a whole source. Takes no memory.
    pub fn of(text: &'a [u8]) -> Cursor<'a>
        ensures { result ≡ spec.tokens text.now }
    {
        Cursor {
            pieces: Pieces::of(text),
        }
    }

    /// The same place again. Takes no memory.
    pub fn copy(&self) -> Cursor<'a>
        ensures { result ≡ self.now }
    {
        Cursor {
            pieces: self.pieces.copy(),
        }
    }

    /// Takes the first token; `None` exactly where none is left. Takes no memory.
    pub fn next(&mut self) -> Option<Token<'a>>
        ensures { Takes result self.old self.new }
    {
        match self.pieces.next() {
            Some((Piece::Plain(kind, bytes, number), line)) => Some(Token {
                kind,
                bytes,
                number,
                line,
            }),
            Some((Piece::Word(word), line)) => {
                let basic_type = self.pieces.basic_type(word);
                Some(basic_token(basic_type, line))
            }
            None => None,
        }
    }

    /// Says that fewer than 2 to the 63 tokens are left. Takes no memory.
    pub fn is_short(&self)
        ensures { length self.now < 2 ^ 63 }
    {
        self.pieces.is_short();
    }
}
