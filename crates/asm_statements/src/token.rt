ghost use Rattle.std.specs.Prelude.{◌≡◌, IfSome};
ghost use Rattle.std.specs.Option.{option_copied};
ghost use Rattle.strtab.specs.StringTable.{HasNoZero};
ghost use Rattle.asm_statements.specs.Tokens.Token.{Word, Str, Mark};
ghost use Rattle.asm_statements.specs.TokenKinds.{token_of, KindFits};

use st_base::Text;
use std::marker::Model;

/// Where in a string a byte stands: not after a `\\`, after one, or after one and one or two octal digits of this value.
#[derive(Clone, Copy, Drop)]
pub enum Quoted {
    Inside,
    Escaped,
    One(u8),
    Two(u32),
}

/// What a token is: a word of the source, a string with its escapes resolved, or a mark.
#[derive(Drop)]
pub enum Kind<'a> {
    Word(&'a [u8]),
    Str(Text),
    Mark(u8),
}

/// A token of a line. A word has no zero byte.
#[derive(Drop)]
pub struct Token<'a> {
    kind: Kind<'a>,
}

/// Tokens of a line.
pub type Tokens<'t, 'a> = &'t [Token<'a>];

impl<'a> Model for Token<'a> {
    ghost use Rattle.asm_statements.specs.Tokens as tokens;
    ghost use Rattle.asm_statements.specs.TokenKinds.{token_of, KindFits};

    ghost Value = { tokens.Token };

    ghost view = { λ t. token_of t.kind };

    ghost invariant = { λ t. KindFits t.kind };
}

impl<'a> Token<'a> {
    /// A word. Takes no memory.
    pub fn word(bytes: &'a [u8]) -> Token<'a>
        requires { HasNoZero bytes.now }
        ensures { result ≡ Word bytes.now }
    {
        Token {
            kind: Kind::Word(bytes),
        }
    }

    /// A string. Takes no memory.
    pub fn string(text: Text) -> Token<'a>
        ensures { result ≡ Str text }
    {
        Token {
            kind: Kind::Str(text),
        }
    }

    /// A mark. Takes no memory.
    pub fn mark(byte: u8) -> Token<'a>
        ensures { result ≡ Mark byte }
    {
        Token {
            kind: Kind::Mark(byte),
        }
    }

    /// What the token is. Takes no memory.
    pub fn kind(&self) -> &Kind<'a>
        ensures value { token_of result.now ≡ self.now }
        ensures fits { KindFits result.now }
    {
        &self.kind
    }
}
