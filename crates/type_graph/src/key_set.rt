ghost use Rattle.std.specs.Prelude.{◌≡◌, ◌<◌, [], IfOk, OnOk, Some, length, slice_get};
ghost use Rattle.type_graph.specs.KeyLists.{added};

use indexmap::IndexSet;
use st_base::{List, Memory};
use stab_grammar::{Key, Num, NumberVisitor, key_of};
use std::alloc::Global;
use std::marker::Model;

/// Keys in the order in which they came, each once.
#[derive(Drop)]
pub struct KeySet {
    keys: IndexSet<Key>,
}

impl Model for KeySet {
    ghost use Rattle.std.specs.Prelude.{List};
    ghost use Rattle.stab_symbols.specs.declared.tree.Key.{Key};

    ghost Value = { List Key };

    ghost view = { λ s. s.keys.keys };
}

impl KeySet {
    /// No keys. Takes no memory.
    pub fn new(alloc: Global) -> KeySet
        ensures { result ≡ [] }
    {
        KeySet {
            keys: IndexSet::new(alloc),
        }
    }

    /// The number of keys.
    pub fn len(&self) -> usize
        ensures { result ≡ length self.now }
    {
        self.items().len()
    }

    /// The keys in order.
    pub fn items(&self) -> &[Key]
        ensures { result.now ≡ self.now }
    {
        self.keys.as_slice()
    }

    /// The keys as a set that tells the place of each.
    pub fn places(&self) -> &IndexSet<Key>
        ensures { result.now.keys ≡ self.now }
    {
        &self.keys
    }

    /// The key at a place counted from 0.
    pub fn key(&self, at: usize) -> Key
        requires { at < length self.now }
        ensures { slice_get self.now at ≡ Some result }
    {
        self.items()[at]
    }

    /// Puts a key at the end, unless it is there already.
    pub fn add(&mut self, key: Key) -> Result<(), Memory>
        ensures { OnOk result (self.new ≡ added self.old key) }
    {
        self.keys.insert(key)?;
        Ok(())
    }

    /// The keys alone, copied.
    pub fn to_list(&self, alloc: Global) -> Result<List<Key>, Memory>
        ensures { IfOk result (λ keys. keys ≡ self.now) }
    {
        let mut keys = List::new(alloc);
        for key in self.items() {
            keys.push(*key)?;
        }
        Ok(keys)
    }
}

impl NumberVisitor for KeySet {
    ghost use Rattle.type_graph.specs.KeyLists.{Adds};

    type Stop = Memory;

    ghost visits = { Adds };

    fn visit(&mut self, num: Num) -> Result<(), Memory> {
        self.add(key_of(&num))
    }
}
