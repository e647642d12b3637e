//! A stack of anything, which contracts see as a list whose first item is on top.

ghost use Rattle.std.specs.Prelude.{◌≡◌, ◌∷◌, [], OnErr, OnOk};
ghost use Rattle.c_types.specs.Stacks.{top, below, is_empty};

use st_base::Memory;
use std::alloc::Global;
use std::marker::Model;

/// A stack. Takes memory for the items that are on it. This project's own.
#[derive(Drop)]
pub struct Stack<T> {
    items: Vec<T>,
}

impl<T> Model for Stack<T> {
    ghost use Rattle.std.specs.Prelude.{List, reverse};
    ghost use Rattle.std.specs.Coded.{coded_list};

    ghost Value = { List T };

    ghost coded = { coded_list T.code };

    ghost view = { λ s. reverse s.items.items };
}

impl<T: Drop> Stack<T> {
    /// A stack without items. Takes no memory.
    pub fn new(alloc: Global) -> Stack<T>
        ensures { result ≡ [] }
    {
        Stack {
            items: Vec::new(alloc),
        }
    }

    /// Whether no item is on it. Takes no memory.
    pub fn is_empty(&self) -> bool
        ensures { result ≡ is_empty self.now }
    {
        self.items.is_empty()
    }

    /// Puts an item on top. Out of memory is its only refusal, and then the stack is as it was.
    pub fn push(&mut self, item: T) -> Result<(), Memory>
        ensures put { OnOk result (self.new ≡ item ∷ self.old) }
        ensures kept { OnErr result (self.new ≡ self.old) }
    {
        self.items.push(item)?;
        Ok(())
    }

    /// Takes the item on top, if there is one. Takes no memory.
    pub fn pop(&mut self) -> Option<T>
        ensures taken { result ≡ top self.old }
        ensures left { self.new ≡ below self.old }
    {
        self.items.pop()
    }
}
