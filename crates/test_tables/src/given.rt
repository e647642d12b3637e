use crate::answer::Odd;
use crate::words::{bytes_of, number_of, order_of, shown, word};
use st_base::{List, Order, Text};
use std::alloc::Global;

/// What a row gives to its call: the words of its input, as the line of the call reads them. Numbers and bytes are counted from 0, each by
/// themselves; one that the line of the call does not name is 0, or no bytes.
#[derive(Drop)]
pub struct Given<'a> {
    /// The order.
    pub order: Order,
    /// The word, as it stands.
    pub word: &'a [u8],
    /// All that is left.
    pub rest: &'a [u8],
    numbers: List<u64>,
    texts: List<Text>,
}

impl<'a> Given<'a> {
    /// Reads a word of this kind, and gives what is left.
    fn read(&mut self, alloc: Global, kind: &[u8], input: &'a [u8]) -> Result<&'a [u8], Odd> {
        let (spelled, left) = word(input);
        match shown(kind) {
            "order" => self.order = order_of(spelled)?,
            "bytes" => self.texts.push(bytes_of(alloc, spelled)?)?,
            "number8" => self.numbers.push(number_of(0xff, spelled)?)?,
            "number16" => self.numbers.push(number_of(0xffff, spelled)?)?,
            "number32" => self.numbers.push(number_of(0xffff_ffff, spelled)?)?,
            "number64" => self.numbers.push(number_of(u64::MAX, spelled)?)?,
            "word" => self.word = spelled,
            "rest" => {
                self.rest = input;
                return Ok(&input[..0]);
            }
            "nothing" => return Ok(input),
            _ => return Err(Odd::Row),
        }
        Ok(left)
    }

    /// Reads an input by the kinds of its words.
    pub fn of(alloc: Global, kinds: &[u8], input: &'a [u8]) -> Result<Given<'a>, Odd> {
        let mut given = Given {
            order: Order::Big,
            word: &input[..0],
            rest: &input[..0],
            numbers: List::new(alloc),
            texts: List::new(alloc),
        };
        let mut left = input;
        for kind in kinds.split(|b| *b == b' ') {
            left = given.read(alloc, kind, left)?;
        }
        if left.is_empty() {
            Ok(given)
        } else {
            Err(Odd::Row)
        }
    }

    /// A number.
    pub fn number(&self, at: usize) -> u64 {
        match self.numbers.get(at) {
            Some(number) => *number,
            None => 0,
        }
    }

    /// A number of at most 32 bits.
    pub fn number32(&self, at: usize) -> u32 {
        u32::try_from(self.number(at)).unwrap_or(0)
    }

    /// A number of at most 16 bits.
    pub fn number16(&self, at: usize) -> u16 {
        u16::try_from(self.number(at)).unwrap_or(0)
    }

    /// A number of at most 8 bits.
    pub fn number8(&self, at: usize) -> u8 {
        u8::try_from(self.number(at)).unwrap_or(0)
    }

    /// Bytes.
    pub fn bytes(&self, at: usize) -> &[u8] {
        match self.texts.get(at) {
            Some(text) => text.bytes(),
            None => b"",
        }
    }
}
