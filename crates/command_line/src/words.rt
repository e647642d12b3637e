//! What the places of a command's words want, and where words are not what is wanted.

ghost use Rattle.std.specs.Prelude.{◌≡◌, ◌≤◌, ◌<◌, IfOk, length, take, drop};
ghost use Rattle.command_line.specs.CommandWords as spec;

use bincl_match::Mode;
use query_text::{Wanted, address_of, is_text, wrong_place};
use st_base::{Memory, Order, Text};
use std::alloc::Global;

/// A word that stands in commands as it is.
#[derive(Clone, Copy, Debug, Drop, PartialEq, Eq)]
pub enum Keyword {
    Query,
    Check,
    Dump,
    List,
    As,
    Link,
    Ask,
}

/// What a word of a command is to the command.
#[derive(Clone, Copy, Debug, Drop, PartialEq, Eq)]
pub enum Operand {
    /// FILE, the file that is read.
    File,
    /// OUT, the file that is stored.
    Out,
    /// ORDER, the byte order of what is stored.
    Order,
    /// ADDR, the address at which an image begins.
    Base,
    /// MODE, which header ranges of an image are kept.
    Mode,
}

/// What a place of a command's words wants. Wherever it stands, a word that is not UTF-8 is not wanted.
#[derive(Clone, Copy, Debug, Drop, PartialEq, Eq)]
pub enum Want {
    /// This word.
    This(Keyword),
    /// Any word, as this operand.
    Any(Operand),
    /// A byte order: `little` or `big`.
    Order,
    /// An address that is a multiple of 4: `0x` and 1 to 8 hexadecimal digits of either case.
    Base,
    /// A mode: `keep` or `merge`.
    Mode,
    /// Any word but `--`, as FILE.
    Object,
}

/// The bytes of a keyword. Takes no memory.
fn keyword_text(keyword: Keyword) -> &'static [u8]
    ensures { result.now ≡ spec.keyword_text keyword }
{
    match keyword {
        Keyword::Query => b"query",
        Keyword::Check => b"check",
        Keyword::Dump => b"dump",
        Keyword::List => b"list",
        Keyword::As => b"as",
        Keyword::Link => b"link",
        Keyword::Ask => b"ask",
    }
}

/// The byte order that a word names. Takes no memory.
pub fn order_of(word: &[u8]) -> Option<Order>
    ensures { result ≡ spec.order_of word.now }
{
    if word == b"little".as_slice() {
        Some(Order::Little)
    } else if word == b"big".as_slice() {
        Some(Order::Big)
    } else {
        None
    }
}

/// The address that a word spells, where it is a multiple of 4. Takes no memory.
pub fn base_of(word: &[u8]) -> Option<u32>
    ensures { result ≡ spec.base_of word.now }
{
    match address_of(word) {
        Some(address) if address % 4 == 0 => Some(address),
        Some(_) => None,
        None => None,
    }
}

/// Which header ranges of an image are kept, as a word names it. Takes no memory.
pub fn mode_of(word: &[u8]) -> Option<Mode>
    ensures { result ≡ spec.mode_of word.now }
{
    if word == b"keep".as_slice() {
        Some(Mode::Keep)
    } else if word == b"merge".as_slice() {
        Some(Mode::Merge)
    } else {
        None
    }
}

fn is_dashes(word: &[u8]) -> bool
    ensures { result ≡ spec.is_dashes word.now }
{
    word == b"--".as_slice()
}

impl Wanted for Want {
    ghost use Rattle.command_line.specs.CommandWords.{is_wanted};

    ghost wants = { is_wanted };

    fn is_wanted(self, word: &[u8]) -> bool {
        match self {
            Want::This(keyword) => word == keyword_text(keyword),
            Want::Any(_) => true,
            Want::Order => order_of(word).is_some(),
            Want::Base => base_of(word).is_some(),
            Want::Mode => mode_of(word).is_some(),
            Want::Object => !is_dashes(word),
        }
    }
}

/// The wrong place among the first words, as many as there are places; others may follow. Takes no memory.
pub fn wrong_front(places: &[Want], words: &[Text]) -> Option<usize>
    ensures { result ≡ spec.wrong_front places.now words.now }
{
    let front = words.len().min(places.len());
    wrong_place(places, &words[..front])
}

/// The first word from a place on that is not UTF-8. Takes no memory.
pub fn first_no_text(from: usize, words: &[Text]) -> Option<usize>
    requires { from ≤ length words.now }
    ensures { result ≡ spec.first_no_text from (drop from words.now) }
{
    for at in from..words.len() {
        if !is_text(&words[at]) {
            return Some(at);
        }
    }
    None
}

/// The place of the first `--` from a place on; or the wrong place, which is that of a word before it that is not UTF-8, or the number of
/// words where there is no `--`. Takes no memory.
pub fn objects_end(from: usize, words: &[Text]) -> Result<usize, usize>
    requires { from ≤ length words.now }
    ensures found { result ≡ spec.objects_end from (drop from words.now) }
    ensures inside { IfOk result (λ end. (from ≤ end) × (end < length words.now)) }
{
    for at in from..words.len() {
        if is_dashes(words[at].bytes()) {
            return Ok(at);
        }
        if !is_text(&words[at]) {
            return Err(at);
        }
    }
    Err(words.len())
}

fn is_operand(operand: Operand, want: Want) -> bool
    ensures { result ≡ spec.is_operand operand want }
{
    match want {
        Want::This(_) => false,
        Want::Any(other) => operand == other,
        Want::Order => operand == Operand::Order,
        Want::Base => operand == Operand::Base,
        Want::Mode => operand == Operand::Mode,
        Want::Object => operand == Operand::File,
    }
}

/// The word that is this operand; empty where no place wants it. Takes no memory.
pub fn word_of<'a>(places: &[Want], words: &'a [Text], operand: Operand) -> &'a [u8]
    ensures { result.now ≡ spec.word_of operand places.now words.now }
{
    for (at, want) in places.iter().enumerate() {
        if is_operand(operand, *want) {
            return match words.get(at) {
                Some(word) => word.bytes(),
                None => &[],
            };
        }
    }
    &[]
}

/// A copy of the word that is this operand.
pub fn text_of(
    alloc: Global,
    places: &[Want],
    words: &[Text],
    wanted: Operand,
) -> Result<Text, Memory>
    ensures { IfOk result (λ t. t ≡ spec.word_of wanted places.now words.now) }
{
    Text::of(alloc, word_of(places, words, wanted))
}
