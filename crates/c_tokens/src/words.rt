ghost use Rattle.std.specs.Prelude.{◌≡◌};
ghost use Rattle.c_tokens.specs.Words as spec;

/// A word of the basic types other than `void`.
#[derive(Clone, Copy, Drop)]
pub enum BasicWord {
    Int,
    Char,
    Short,
    Long,
    Signed,
    Unsigned,
}

/// The number of the basic type that words spell; `None` exactly where they spell none. Takes no memory.
pub(crate) fn basic_type(words: &[BasicWord]) -> Option<u32>
    ensures { result ≡ spec.basic_type words.now }
{
    match words {
        [BasicWord::Int] => Some(1),
        [BasicWord::Char] => Some(2),
        [BasicWord::Long] | [BasicWord::Long, BasicWord::Int] => Some(3),
        [BasicWord::Unsigned] | [BasicWord::Unsigned, BasicWord::Int] => Some(4),
        [BasicWord::Unsigned, BasicWord::Long]
        | [BasicWord::Unsigned, BasicWord::Long, BasicWord::Int] => Some(5),
        [BasicWord::Short] | [BasicWord::Short, BasicWord::Int] => Some(6),
        [BasicWord::Unsigned, BasicWord::Short]
        | [BasicWord::Unsigned, BasicWord::Short, BasicWord::Int] => Some(7),
        [BasicWord::Unsigned, BasicWord::Char] => Some(8),
        [BasicWord::Signed, BasicWord::Char] => Some(9),
        [BasicWord::Long, BasicWord::Long] | [BasicWord::Long, BasicWord::Long, BasicWord::Int] =>
            Some(11),
        [BasicWord::Unsigned, BasicWord::Long, BasicWord::Long]
        | [
            BasicWord::Unsigned,
            BasicWord::Long,
            BasicWord::Long,
            BasicWord::Int,
        ] => Some(12),
        _ => None,
    }
}
