/// What a token is, as far as the forms of declarations go.
#[derive(Clone, Copy, Drop)]
pub enum Kind {
    Typedef,
    Static,
    Extern,
    Const,
    Volatile,
    /// `struct`, its number 0, or `union`, its number 1.
    Struct,
    Enum,
    /// A longest run of words of basic types that spells one of them, other than `void`. Its number is that of the type, 1 to 12.
    Basic,
    /// `void`; its number is 10.
    Void,
    /// A name that is none of the words.
    Name,
    /// A decimal number over 0.
    Number,
    /// `0`.
    Zero,
    /// The line of an `#include "x"`; its text is x.
    Include,
    OpenBrace,
    CloseBrace,
    OpenParen,
    CloseParen,
    OpenBracket,
    CloseBracket,
    Semi,
    Comma,
    Star,
    Equals,
    Minus,
    /// What no form allows: a byte that begins no token, a comment that is not closed, a number that is too large or has a leading
    /// zero, words of basic types that spell none.
    Bad,
}
