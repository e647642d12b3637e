use crate::words::{bytes_of, put_digits};
use st_base::{Fault, Memory, Refused, Text};
use std::alloc::Global;

/// Why a row has no answer.
#[derive(Clone, Copy, Drop)]
pub enum Odd {
    /// It is not written as its call wants.
    Row,
    /// Out of memory.
    Memory,
}

impl From<Memory> for Odd {
    fn from(_memory: Memory) -> Odd {
        Odd::Memory
    }
}

/// The answer of a call, as the words of a row. What goes wrong is kept, and told at the end, so that a call writes its answer word after
/// word, without a refusal at each.
#[derive(Drop)]
pub struct Answer {
    /// Where a call has its memory from.
    pub alloc: Global,
    /// The words so far.
    pub text: Text,
    odd: Option<Odd>,
}

impl Answer {
    /// No words yet.
    pub fn new(alloc: Global) -> Answer {
        Answer {
            alloc,
            text: Text::new(alloc),
            odd: None,
        }
    }

    // ---- what goes wrong

    /// The row is not written as its call wants.
    pub fn refuse(&mut self) {
        self.odd = Some(Odd::Row);
    }

    /// Out of memory.
    pub fn lose(&mut self) {
        self.odd = Some(Odd::Memory);
    }

    /// What went wrong.
    pub fn fail(&mut self, odd: Odd) {
        self.odd = Some(odd);
    }

    /// What a call came to that only writes.
    pub fn wrote(&mut self, written: Result<(), Memory>) {
        if written.is_err() {
            self.lose();
        }
    }

    /// The words, where nothing went wrong.
    pub fn ended(self) -> Result<Text, Odd> {
        match self.odd {
            None => Ok(self.text),
            Some(odd) => Err(odd),
        }
    }

    /// The bytes that a word spells; none where it spells none.
    pub fn bytes_in(&mut self, spelled: &[u8]) -> Text {
        match bytes_of(self.alloc, spelled) {
            Ok(bytes) => bytes,
            Err(odd) => {
                self.fail(odd);
                Text::new(self.alloc)
            }
        }
    }

    // ---- words

    /// A word as it stands, a blank before it if it is not the first.
    pub fn put(&mut self, word: &[u8]) {
        if !self.text.bytes().is_empty() {
            let written = self.text.push(b' ');
            self.wrote(written);
        }
        let written = self.text.extend(word);
        self.wrote(written);
    }

    /// A text as it stands as a word; an empty one is `.`.
    pub fn put_name(&mut self, text: &[u8]) {
        if text.is_empty() {
            self.put(b".");
        } else {
            self.put(text);
        }
    }

    /// The words of another answer as one, and what went wrong there.
    pub fn take(&mut self, other: &Answer) {
        if let Some(odd) = other.odd {
            self.fail(odd);
        }
        self.put_name(other.text.bytes());
    }

    /// Bytes as a word.
    pub fn put_bytes(&mut self, bytes: &[u8]) {
        if bytes.is_empty() {
            self.put(b".");
        } else {
            self.put(b"");
            let written = put_digits(bytes, &mut self.text);
            self.wrote(written);
        }
    }

    /// A byte as a word.
    pub fn put_byte(&mut self, byte: u8) {
        self.put_bytes(&[byte]);
    }

    /// The two bytes of a number as a word, the most significant one first.
    pub fn put_word16(&mut self, number: u16) {
        self.put_bytes(&number.to_be_bytes());
    }

    /// The four bytes of a number as a word, the most significant one first.
    pub fn put_word32(&mut self, number: u32) {
        self.put_bytes(&number.to_be_bytes());
    }

    /// Each number as its bytes.
    pub fn put_words32(&mut self, numbers: &[u32]) {
        for number in numbers {
            self.put_word32(*number);
        }
    }

    /// A number as a word, in decimal.
    pub fn put_number(&mut self, number: u64) {
        self.put(b"");
        let written = st_base::put_number(number, &mut self.text);
        self.wrote(written);
    }

    /// Each number as a word.
    pub fn put_numbers(&mut self, numbers: &[u32]) {
        for number in numbers {
            self.put_number(u64::from(*number));
        }
    }

    /// The number, the place and, if it is not 0, the within of a fault.
    pub fn put_fault(&mut self, fault: &Fault) {
        self.put(b"fault");
        self.put_number(u64::from(fault.number));
        self.put_number(fault.place);
        if fault.within != 0 {
            self.put_number(fault.within);
        }
    }

    /// The fault of a refusal, if it is one.
    pub fn put_refused(&mut self, refused: &Refused) {
        match refused {
            Refused::At(fault) => self.put_fault(fault),
            Refused::Memory => self.lose(),
        }
    }

    /// `ok`, or the fault of a check.
    pub fn put_checked(&mut self, checked: Result<(), Fault>) {
        match checked {
            Ok(()) => self.put(b"ok"),
            Err(fault) => self.put_fault(&fault),
        }
    }
}
