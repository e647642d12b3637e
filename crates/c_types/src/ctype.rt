ghost use Rattle.std.specs.Prelude.{◌≡◌};
ghost use Rattle.c_types.specs.Types as spec;

use crate::sizes::{Extent, Size};
use st_base::{List, Text};

/// The word of a tag.
#[derive(Clone, Copy, Debug, Drop)]
pub enum Word {
    Struct,
    Union,
    Enum,
}

impl Word {
    /// The type descriptor of the word: `s`, `u` or `e`. Takes no memory.
    pub fn letter(self) -> u8
        ensures { result ≡ spec.letter self }
    {
        match self {
            Word::Struct => b's',
            Word::Union => b'u',
            Word::Enum => b'e',
        }
    }
}

/// The number of a type: that of its file in the unit, 0 for the main source, and its own in that file, counted from 1.
#[derive(Clone, Copy, Debug, Drop)]
pub struct TypeNumber {
    pub file: u32,
    pub number: u32,
}

/// What is known of a tag: its word at the first mention, its number, whether its body has begun, and the extent of a body that
/// has ended.
#[derive(Clone, Copy, Debug, Drop)]
pub struct Tag {
    pub word: Word,
    pub number: TypeNumber,
    pub begun: bool,
    pub extent: Option<Extent>,
}

/// What a typedef stands for: its number, and its size, which is looked at when it is used.
#[derive(Clone, Copy, Debug, Drop)]
pub struct Typedef {
    pub number: TypeNumber,
    pub size: Size,
}

/// How a type is written: by its number, or, for a body without a tag, by the body.
#[derive(Drop)]
pub enum Spelling {
    Numbered(TypeNumber),
    Body(Text),
}

/// The type that a declaration begins with, without its qualifiers.
#[derive(Drop)]
pub struct CType {
    pub spelling: Spelling,
    pub size: Size,
}

/// `const` and `volatile`, as they stand in front of a type.
#[derive(Clone, Copy, Debug, Drop)]
pub struct Qualifiers {
    pub constant: bool,
    pub volatile: bool,
}

/// A type as it is declared: `const T *name[3][2]` has the base T, one star and the lengths 3 and 2.
#[derive(Drop)]
pub struct Declared {
    pub qualifiers: Qualifiers,
    pub base: CType,
    pub stars: u64,
    /// The lengths of arrays as they are written, so the first is that of the outermost array.
    pub lengths: List<u32>,
}

/// A tag that is mentioned: its place among the tags, in order of first mention and counted from 0, its word and its number, and whether
/// this is the first mention.
#[derive(Clone, Copy, Debug, Drop)]
pub struct Mention {
    pub place: usize,
    pub word: Word,
    pub number: TypeNumber,
    pub first: bool,
}

impl CType {
    /// The basic type of this number, 1 to 12, where 10 is `void`. Takes no memory.
    pub fn basic(number: u32) -> CType
        ensures { result ≡ spec.basic_type number }
    {
        CType {
            spelling: Spelling::Numbered(TypeNumber { file: 0, number }),
            size: Size::of_basic(number),
        }
    }

    /// The type of a tag that was mentioned. Takes no memory.
    pub fn of_tag(mention: Mention) -> CType
        ensures { result ≡ spec.tag_type mention }
    {
        CType {
            spelling: Spelling::Numbered(mention.number),
            size: Size::OfTag(mention.place),
        }
    }
}

impl Declared {
    /// Whether the type is a number alone. Takes no memory.
    pub fn is_numbered(&self) -> bool
        ensures { result ≡ spec.is_numbered self.now }
    {
        self.lengths.items().is_empty()
            && self.stars == 0
            && !self.qualifiers.constant
            && !self.qualifiers.volatile
            && self.base.spelling.is_number()
    }
}

impl Spelling {
    fn is_number(&self) -> bool
        ensures { result ≡ spec.is_number self.now }
    {
        match self {
            Spelling::Numbered(_) => true,
            Spelling::Body(_) => false,
        }
    }
}
