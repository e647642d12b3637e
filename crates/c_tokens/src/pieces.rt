ghost use Rattle.std.specs.Prelude.{◌≡◌, ◌∷◌, ◌<◌, ◌≤◌, ◌^◌, option_map, length, count_by, true, false};
ghost use Rattle.c_tokens.specs.Fronts.{is_line_feed};
ghost use Rattle.c_tokens.specs.Pieces.{placed_of, Takes, TakesWord};
ghost use Rattle.c_tokens.specs.Scanning as spec;
ghost use Rattle.c_tokens.specs.Words as words;

use crate::front::{front, is_blank};
use crate::piece::Piece;
use crate::words::{BasicWord, basic_type};
use std::marker::Model;

// One more than the longest spelling of a basic type has. What stands behind so many words changes nothing.
const MOST_WORDS: usize = 5;

/// Where reading stands in a source, piece by piece. Contracts see the pieces that are left, each with its line.
#[derive(Drop)]
pub struct Pieces<'a> {
    rest: &'a [u8],
    line: u64,
    fresh: bool,
}

impl<'a> Model for Pieces<'a> {
    ghost use Rattle.std.specs.Prelude.{List, length};
    ghost use Rattle.c_tokens.specs.Scanning as spec;
    ghost use Rattle.c_tokens.specs.Scanning.{HasRoom};

    ghost Value = { List spec.Placed };

    ghost view = { λ p. spec.pieces 0 p.fresh p.line p.rest.now };

    ghost invariant = { λ p. HasRoom p.line (length p.rest.now) };
}

// How many lines end in these bytes.
fn line_feeds(bytes: &[u8]) -> usize
    ensures value { result ≡ count_by is_line_feed bytes.now }
    ensures within { result ≤ length bytes.now }
{
    bytes.iter().filter(|b| **b == b'\n').count()
}

fn is_fresh_behind(fresh: bool, byte: u8) -> bool
    ensures { result ≡ spec.fresh_behind fresh byte }
{
    byte == b'\n' || fresh && is_blank(byte)
}

impl<'a> Pieces<'a> {
    /// The pieces of a whole source. Takes no memory.
    pub fn of(text: &'a [u8]) -> Pieces<'a>
        ensures { result ≡ spec.pieces 0 true 1 text.now }
    {
        Pieces {
            rest: text,
            line: 1,
            fresh: true,
        }
    }

    /// The same place again. Takes no memory.
    pub fn copy(&self) -> Pieces<'a>
        ensures { result ≡ self.now }
    {
        Pieces {
            rest: self.rest,
            line: self.line,
            fresh: self.fresh,
        }
    }

    /// Takes the first piece; `None` exactly where none is left. Takes no memory.
    pub fn next(&mut self) -> Option<(Piece<'a>, u64)>
        ensures { Takes (option_map placed_of result) self.old self.new }
    {
        while !self.rest.is_empty() {
            let (piece, size) = front(self.rest, self.fresh);
            let line = self.line;
            let (taken, behind) = self.rest.split_at(size);
            self.line += line_feeds(taken) as u64;
            self.fresh = is_fresh_behind(self.fresh, taken[0]);
            self.rest = behind;
            if let Some(piece) = piece {
                return Some((piece, line));
            }
        }
        None
    }

    /// Says that fewer than 2 to the 63 pieces are left. Takes no memory.
    pub fn is_short(&self)
        ensures { length self.now < 2 ^ 63 }
    {
        let _ = &self.rest;
    }

    // Takes the first piece if it is a word of basic types, else nothing.
    fn word(&mut self) -> Option<BasicWord>
        ensures { TakesWord result self.old self.new }
    {
        let mut ahead = self.copy();
        match ahead.next() {
            Some((Piece::Word(word), _)) => {
                *self = ahead;
                Some(word)
            }
            _ => None,
        }
    }

    /// Takes the words of basic types in front, which stand behind this one, and gives the number of the basic type that they all
    /// spell; `None` where they spell none. Takes no memory.
    pub fn basic_type(&mut self, first: BasicWord) -> Option<u32>
        ensures value { result ≡ words.basic_type (first ∷ spec.words self.old) }
        ensures behind { spec.merged true self.old ≡ spec.merged false self.new }
    {
        let mut words = [first; MOST_WORDS];
        let mut count = 1;
        while let Some(word) = self.word() {
            if count < MOST_WORDS {
                words[count] = word;
                count += 1;
            }
        }
        basic_type(&words[..count])
    }
}
