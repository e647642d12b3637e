ghost use Rattle.std.specs.Prelude.{◌≡◌, [], OnOk, OnErr, IfOk, Some, ◌<◌, length, slice_get, position};
ghost use Rattle.std.specs.List.{list_any};
ghost use Rattle.std.specs.Str.{bytes_eq};
ghost use Rattle.st_base.specs.FirstUses.{used};

use indexmap::IndexSet;
use st_base::{Memory, Text};
use std::alloc::Global;
use std::marker::Model;

/// Distinct names in order of first use. Contracts see their list.
#[derive(Drop)]
pub struct Words {
    alloc: Global,
    set: IndexSet<Vec<u8>>,
}

impl Model for Words {
    ghost use Rattle.std.specs.Prelude.{List, ℕ};
    ghost use Rattle.asm_objects.specs.DefinedNames.{words_in};

    ghost Value = { List (List ℕ) };

    ghost view = { λ w. words_in w.set.keys };
}

impl Words {
    /// No names. Takes no memory.
    pub fn new(alloc: Global) -> Words
        ensures { result ≡ [] }
    {
        Words {
            alloc,
            set: IndexSet::new(alloc),
        }
    }

    /// Whether the name is there. Takes no memory.
    pub fn has(&self, name: &[u8]) -> bool
        ensures { result ≡ list_any (bytes_eq name.now) self.now }
    {
        self.set.contains(name)
    }

    /// How many names stand before this one, if it is there. Takes no memory.
    pub fn place(&self, name: &[u8]) -> Option<usize>
        ensures { result ≡ position (bytes_eq name.now) self.now }
    {
        self.set.get_index_of(name)
    }

    /// How many names there are. Takes no memory.
    pub fn len(&self) -> usize
        ensures { result ≡ length self.now }
    {
        self.set.len()
    }

    /// The name at a place.
    pub fn text_at(&self, alloc: Global, at: usize) -> Result<Text, Memory>
        requires { at < length self.now }
        ensures { IfOk result (λ t. slice_get self.now at ≡ Some t) }
    {
        let mut text = Text::new(alloc);
        if let Some(name) = self.set.get_index(at) {
            text.extend(name.as_slice())?;
        }
        Ok(text)
    }

    /// Adds a name, where it is not there. Refused only where memory runs out; the names are then as they were.
    pub fn add(&mut self, name: &[u8]) -> Result<(), Memory>
        ensures ok { OnOk result (self.new ≡ used bytes_eq self.old name.now) }
        ensures err { OnErr result (self.new ≡ self.old) }
    {
        let key = Vec::from_slice(self.alloc, name)?;
        self.set.insert(key)?;
        Ok(())
    }
}
