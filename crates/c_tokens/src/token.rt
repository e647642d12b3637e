ghost use Rattle.std.specs.Prelude.{◌≡◌};

use crate::kind::Kind;
use std::marker::Model;

/// A token of a source: what it is, the bytes of a name or of an include's file, its number, and its line, counted from 1.
#[derive(Drop)]
pub struct Token<'a> {
    pub kind: Kind,
    pub bytes: &'a [u8],
    pub number: u32,
    pub line: u64,
}

impl<'a> Model for Token<'a> {
    ghost use Rattle.c_tokens.specs.Tokens as tokens;

    ghost Value = { tokens.Token };

    ghost view = { λ t. (t.kind, record { text = t.bytes.now; number = t.number; line = t.line }) };
}

impl<'a> Token<'a> {
    /// What the token is. Takes no memory.
    pub fn kind(&self) -> Kind
        ensures { result ≡ self.now.0 }
    {
        self.kind
    }
}
