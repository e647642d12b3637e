ghost use Rattle.std.specs.Prelude.{◌≡◌, ◌++◌, [], OnOk, position};
ghost use Rattle.std.specs.List.{list_any};
ghost use Rattle.std.specs.Str.{bytes_eq};
ghost use Rattle.st_base.specs.FirstUses.{used};
ghost use Rattle.c_types.specs.Acts.{Acts};
ghost use Rattle.c_types.specs.Named.{given, name_at};

use indexmap::IndexSet;
use st_base::{Fault, Memory, Refused, Text};
use std::alloc::Global;
use std::marker::Model;

/// Distinct names in order of first use. Contracts see their list.
#[derive(Drop)]
pub struct Names {
    alloc: Global,
    set: IndexSet<Vec<u8>>,
}

impl Model for Names {
    ghost use Rattle.std.specs.Prelude.{List, ℕ};
    ghost use Rattle.c_types.specs.Named.{words_in};

    ghost Value = { List (List ℕ) };

    ghost view = { λ w. words_in w.set.keys };
}

impl Names {
    /// No names. Takes no memory.
    pub fn new(alloc: Global) -> Names
        ensures { result ≡ [] }
    {
        Names {
            alloc,
            set: IndexSet::new(alloc),
        }
    }

    /// Whether the name is there. Takes no memory.
    pub fn has(&self, name: &[u8]) -> bool
        ensures { result ≡ list_any (bytes_eq name.now) self.now }
    {
        self.set.contains(name)
    }

    /// How many names stand before this one, if it is there. Takes no memory.
    pub fn place(&self, name: &[u8]) -> Option<usize>
        ensures { result ≡ position (bytes_eq name.now) self.now }
    {
        self.set.get_index_of(name)
    }

    /// Appends the name at a place to a text, and nothing where there is none.
    pub fn put(&self, at: usize, out: &mut Text) -> Result<(), Memory>
        ensures { OnOk result (out.new ≡ out.old ++ name_at self.now at) }
    {
        match self.set.get_index(at) {
            Some(name) => out.extend(name.as_slice()),
            None => Ok(()),
        }
    }

    /// Adds a name, where it is not there.
    pub fn add(&mut self, name: &[u8]) -> Result<(), Memory>
        ensures { OnOk result (self.new ≡ used bytes_eq self.old name.now) }
    {
        let key = Vec::from_slice(self.alloc, name)?;
        self.set.insert(key)?;
        Ok(())
    }

    /// Gives a name in this scope. Refused with the fault where it was given before.
    pub fn give(&mut self, name: &[u8], again: Fault) -> Result<(), Refused>
        ensures { Acts (given again name.now self.old) self.old self.new result }
    {
        if self.has(name) {
            return Err(Refused::At(again));
        }
        self.add(name)?;
        Ok(())
    }
}
