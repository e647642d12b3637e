ghost use Rattle.std.specs.Prelude.{◌≡◌, [], OnOk, OnErr};
ghost use Rattle.std.specs.Map.{lookup};
ghost use Rattle.std.specs.Str.{bytes_eq};
ghost use Rattle.st_base.specs.FirstUses.{used};
ghost use Rattle.asm_objects.specs.DefinedNames.{same_name};

use crate::table::Definition;
use indexmap::IndexMap;
use st_base::Memory;
use std::alloc::Global;
use std::marker::Model;

/// Names in order of first use, each with its first definition. Contracts see the list of the pairs.
#[derive(Drop)]
pub struct Names {
    alloc: Global,
    map: IndexMap<Vec<u8>, Definition>,
}

impl Model for Names {
    ghost use Rattle.std.specs.Prelude.{List, ℕ};
    ghost use Rattle.asm_objects.specs.declared.table.Definition.{Definition};
    ghost use Rattle.asm_objects.specs.DefinedNames.{pairs_in};

    ghost Value = { List (List ℕ × Definition) };

    ghost view = { λ n. pairs_in n.map.entries };
}

impl Names {
    /// No names. Takes no memory.
    pub fn new(alloc: Global) -> Names
        ensures { result ≡ [] }
    {
        Names {
            alloc,
            map: IndexMap::new(alloc),
        }
    }

    /// The definition of a name, if it has one. Takes no memory.
    pub fn get(&self, name: &[u8]) -> Option<Definition>
        ensures { result ≡ lookup (bytes_eq name.now) self.now }
    {
        self.map.get(name).copied()
    }

    /// Gives a name its definition, where it has none. Refused only where memory runs out; the names are then as they were.
    pub fn add(&mut self, name: &[u8], definition: Definition) -> Result<(), Memory>
        ensures ok { OnOk result (self.new ≡ used same_name self.old (name.now, definition)) }
        ensures err { OnErr result (self.new ≡ self.old) }
    {
        if self.map.contains_key(name) {
            return Ok(());
        }
        let key = Vec::from_slice(self.alloc, name)?;
        self.map.insert(key, definition)?;
        Ok(())
    }
}
