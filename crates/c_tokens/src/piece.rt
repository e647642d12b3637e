ghost use Rattle.std.specs.Prelude.{◌≡◌};
ghost use Rattle.c_tokens.specs.Pieces.{piece_of};
ghost use Rattle.c_tokens.specs.Words as spec;

use crate::kind::Kind;
use crate::words::BasicWord;

/// What a source is made of: a word of basic types, or a token as it stands, with its bytes and its number.
#[derive(Drop)]
pub enum Piece<'a> {
    Word(BasicWord),
    Plain(Kind, &'a [u8], u32),
}

/// A token that its kind alone describes. Takes no memory.
pub(crate) fn mark<'a>(kind: Kind) -> Piece<'a>
    ensures { piece_of result ≡ spec.mark kind }
{
    Piece::Plain(kind, &[], 0)
}

macro_rules! look_up {
    ($name:ident: $($text:literal => $piece:expr,)*) => {
        match $name {
            $(name if name == $text.as_slice() => $piece,)*
            _ => Piece::Plain(Kind::Name, $name, 0),
        }
    };
}

/// What a longest run of letters, digits and `_` is: one of the words, else a name. Takes no memory.
pub(crate) fn named<'a>(name: &'a [u8]) -> Piece<'a>
    ensures { piece_of result ≡ spec.named name.now }
{
    look_up! {
        name:
        b"typedef" => mark(Kind::Typedef),
        b"static" => mark(Kind::Static),
        b"extern" => mark(Kind::Extern),
        b"const" => mark(Kind::Const),
        b"volatile" => mark(Kind::Volatile),
        b"struct" => mark(Kind::Struct),
        b"union" => Piece::Plain(Kind::Struct, &[], 1),
        b"enum" => mark(Kind::Enum),
        b"void" => Piece::Plain(Kind::Void, &[], 10),
        b"int" => Piece::Word(BasicWord::Int),
        b"char" => Piece::Word(BasicWord::Char),
        b"short" => Piece::Word(BasicWord::Short),
        b"long" => Piece::Word(BasicWord::Long),
        b"signed" => Piece::Word(BasicWord::Signed),
        b"unsigned" => Piece::Word(BasicWord::Unsigned),
    }
}
