ghost use Rattle.std.specs.Prelude.{◌≡◌, [], OnOk};
ghost use Rattle.std.specs.Map.{lookup};
ghost use Rattle.std.specs.Str.{bytes_eq};
ghost use Rattle.st_base.specs.FirstUses.{used};
ghost use Rattle.c_types.specs.Named.{same_name};

use crate::ctype::Typedef;
use indexmap::IndexMap;
use st_base::Memory;
use std::alloc::Global;
use std::marker::Model;

/// The typedefs of a unit by their names, in order. Contracts see the list of the pairs.
#[derive(Drop)]
pub struct Typedefs {
    alloc: Global,
    map: IndexMap<Vec<u8>, Typedef>,
}

impl Model for Typedefs {
    ghost use Rattle.std.specs.Prelude.{List, ℕ};
    ghost use Rattle.c_types.specs.declared.ctype.Typedef.{Typedef};
    ghost use Rattle.c_types.specs.Named.{pairs_in};

    ghost Value = { List (List ℕ × Typedef) };

    ghost view = { λ n. pairs_in n.map.entries };
}

impl Typedefs {
    /// No typedefs. Takes no memory.
    pub fn new(alloc: Global) -> Typedefs
        ensures { result ≡ [] }
    {
        Typedefs {
            alloc,
            map: IndexMap::new(alloc),
        }
    }

    /// The typedef of a name, if there is one. Takes no memory.
    pub fn get(&self, name: &[u8]) -> Option<Typedef>
        ensures { result ≡ lookup (bytes_eq name.now) self.now }
    {
        self.map.get(name).copied()
    }

    /// Adds a typedef, where its name has none.
    pub fn add(&mut self, name: &[u8], typedef: Typedef) -> Result<(), Memory>
        ensures { OnOk result (self.new ≡ used same_name self.old (name.now, typedef)) }
    {
        if self.map.contains_key(name) {
            return Ok(());
        }
        let key = Vec::from_slice(self.alloc, name)?;
        self.map.insert(key, typedef)?;
        Ok(())
    }
}
