//! A stack of numbers, which contracts see as a list whose first item is on top.

ghost use Rattle.std.specs.Prelude.{◌≡◌, ◌∷◌, [], OnErr, OnOk, slice_get};
ghost use Rattle.unit_outlines.specs.EntryWords.{behind_first};

use st_base::Memory;
use std::alloc::Global;
use std::marker::Model;

/// A stack of numbers. Takes memory for the numbers that are on it. This project's own.
#[derive(Debug, Drop)]
pub struct Stack {
    numbers: Vec<u64>,
}

impl Model for Stack {
    ghost use Rattle.std.specs.Prelude.{List, ℕ};
    ghost use Rattle.std.specs.Prelude.{reverse};

    ghost Value = { List ℕ };

    ghost view = { λ s. reverse s.numbers.items };
}

impl Stack {
    /// A stack without numbers. Takes no memory.
    pub fn new(alloc: Global) -> Stack
        ensures { result ≡ [] }
    {
        Stack {
            numbers: Vec::new(alloc),
        }
    }

    /// Puts a number on top. Out of memory is its only refusal, and then the stack is as it was.
    pub fn push(&mut self, number: u64) -> Result<(), Memory>
        ensures put { OnOk result (self.new ≡ number ∷ self.old) }
        ensures kept { OnErr result (self.new ≡ self.old) }
    {
        self.numbers.push(number)?;
        Ok(())
    }

    /// Takes the number on top, if there is one.
    pub fn pop(&mut self) -> Option<u64>
        ensures top { result ≡ slice_get self.old 0 }
        ensures left { self.new ≡ behind_first self.old }
    {
        self.numbers.pop()
    }

    /// The number on top, if there is one.
    pub fn top(&self) -> Option<u64>
        ensures { result ≡ slice_get self.now 0 }
    {
        match self.numbers.last() {
            None => None,
            Some(number) => Some(*number),
        }
    }

    /// Drops all numbers.
    pub fn clear(&mut self)
        ensures { self.new ≡ [] }
    {
        self.numbers.truncate(0);
    }
}
