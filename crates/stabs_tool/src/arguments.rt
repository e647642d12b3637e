//! The words of the command line, as bytes. What a runtime hands over is known to no clause, since std's `Env` tells no words: the tests
//! here have runtimes of their own.

ghost use Rattle.std.specs.Prelude.{◌≤◌, length, IfOk};

use st_base::{List, Memory, Text};
use std::alloc::Global;
use std::env::FillError;
use std::rt::Env;

/// The room for a word at first, as a power of two: 4 KiB.
const LEAST: u32 = 12;

/// The most room for a word, as a power of two: 2 GiB.
const GREATEST: u32 = 31;

/// What asking for a word came to.
enum Asked {
    Word(Text),
    /// It is longer than the room.
    Long,
    /// There is none at the place.
    Behind,
}

/// Asks for the word at a place, with room for so many bytes.
fn ask<R: Env>(alloc: Global, rt: &R, at: usize, size: usize) -> Result<Asked, Memory> {
    let mut room = vec![in alloc; 0u8; size]?;
    match rt.arg(at, &mut room) {
        Ok(len) => {
            let mut word = Text::new(alloc);
            word.extend(&room[..len])?;
            Ok(Asked::Word(word))
        }
        Err(FillError::TooLong) => Ok(Asked::Long),
        Err(FillError::NotPresent) => Ok(Asked::Behind),
    }
}

/// The word at a place; none behind the last.
fn word_at<R: Env>(alloc: Global, rt: &R, at: usize) -> Result<Option<Text>, Memory> {
    for power in LEAST..=GREATEST {
        match ask(alloc, rt, at, 1 << power)? {
            Asked::Word(word) => return Ok(Some(word)),
            Asked::Long => {}
            Asked::Behind => return Ok(None),
        }
    }
    Err(Memory)
}

/// The words behind the program's name.
pub fn words_of<R: Env>(alloc: Global, rt: &R) -> Result<List<Text>, Memory> {
    let mut words = List::new(alloc);
    for at in 1..usize::MAX {
        match word_at(alloc, rt, at)? {
            Some(word) => words.push(word)?,
            None => break,
        }
    }
    Ok(words)
}

#[cfg(test)]
mod tests {
    use super::*;
    use std::test::Fail;

    /// A runtime whose arguments are the program's name, a word that is not UTF-8, no bytes, and a word of 5000 bytes.
    struct Words;

    const LONG: [u8; 5000] = [b'a'; 5000];

    impl Env for Words {
        fn arg(&self, i: usize, buf: &mut [u8]) -> Result<usize, FillError> {
            let word = match i {
                0 => b"stabs".as_slice(),
                1 => b"\xe9.o".as_slice(),
                2 => b"".as_slice(),
                3 => LONG.as_slice(),
                _ => return Err(FillError::NotPresent),
            };
            if buf.len() < word.len() {
                return Err(FillError::TooLong);
            }
            buf[..word.len()].copy_from_slice(word);
            Ok(word.len())
        }

        fn var(&self, _name: &str, _buf: &mut [u8]) -> Result<usize, FillError> {
            Err(FillError::NotPresent)
        }

        fn var_at(&self, _i: usize, _buf: &mut [u8]) -> Result<usize, FillError> {
            Err(FillError::NotPresent)
        }
    }

    /// A runtime with the program's name and 2,000 words, each of which is its place in four digits; the last has 100,000 bytes.
    struct Many;

    const MANY: usize = 2000;

    const HUGE: usize = 100_000;

    /// The digit of a number at a power of ten.
    fn digit(number: usize, power: usize) -> u8 {
        b'0' + (number / power.max(1) % 10) as u8
    }

    /// The word of a place, in four digits.
    fn numbered(at: usize) -> [u8; 4] {
        [digit(at, 1000), digit(at, 100), digit(at, 10), digit(at, 1)]
    }

    /// Puts a word at the front of the room.
    fn put(word: &[u8], buf: &mut [u8]) -> Result<usize, FillError>
        ensures { IfOk result (λ count. count ≤ length buf.new) }
    {
        if buf.len() < word.len() {
            return Err(FillError::TooLong);
        }
        buf[..word.len()].copy_from_slice(word);
        Ok(word.len())
    }

    /// Puts the last word at the front of the room: 100,000 bytes.
    fn put_huge(buf: &mut [u8]) -> Result<usize, FillError>
        ensures { IfOk result (λ count. count ≤ length buf.new) }
    {
        if buf.len() < HUGE {
            return Err(FillError::TooLong);
        }
        buf[..HUGE].fill(b'z');
        Ok(HUGE)
    }

    impl Env for Many {
        fn arg(&self, i: usize, buf: &mut [u8]) -> Result<usize, FillError> {
            if i < MANY {
                put(&numbered(i), buf)
            } else if i == MANY {
                put_huge(buf)
            } else {
                Err(FillError::NotPresent)
            }
        }

        fn var(&self, _name: &str, _buf: &mut [u8]) -> Result<usize, FillError> {
            Err(FillError::NotPresent)
        }

        fn var_at(&self, _i: usize, _buf: &mut [u8]) -> Result<usize, FillError> {
            Err(FillError::NotPresent)
        }
    }

    /// Whether the word at a place counted from 0 is the number of its argument.
    fn is_numbered(words: &[Text], at: usize) -> bool {
        match words.get(at) {
            Some(word) => word.bytes() == numbered(at.wrapping_add(1)).as_slice(),
            None => false,
        }
    }

    /// Whether the word at a place has so many bytes, all of which are `z`.
    fn is_huge(words: &[Text], at: usize) -> bool {
        match words.get(at) {
            Some(word) => word.bytes().len() == HUGE && word.bytes().iter().all(|b| *b == b'z'),
            None => false,
        }
    }

    #[test]
    fn every_word_is_taken_however_many_and_long(rt: HostRuntime) -> Result<(), Fail> {
        let words = words_of(rt.alloc(), &Many)?;
        let words = words.items();
        assert_eq!(rt; words.len(), MANY);
        for at in [0, 1, 998, 999, 1021, 1022, 1023, 1024, 1997, 1998] {
            assert!(rt; is_numbered(words, at), "word {at}");
        }
        assert!(rt; is_huge(words, MANY - 1));
        Ok(())
    }

    #[test]
    fn words_are_taken_as_they_are(rt: HostRuntime) -> Result<(), Fail> {
        let words = words_of(rt.alloc(), &Words)?;
        let words = words.items();
        assert_eq!(rt; words.len(), 3);
        for (word, expected) in words.iter().zip([b"\xe9.o".as_slice(), b"", &LONG]) {
            assert_eq!(rt; word.bytes(), expected);
        }
        Ok(())
    }
}
