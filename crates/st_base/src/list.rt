ghost use Rattle.std.specs.Prelude.{◌≡◌, [], ◌∷◌, ◌++◌, ◌≤◌, ◌<◌, length, take, slice_get, slice_set, IfOk, OnOk, OnErr, OnSome};
ghost use Rattle.std.specs.Option.{option_copied};

use crate::fault::Memory;
use std::alloc::Global;
use std::marker::Model;

/// A list that grows at its end. It keeps its allocator, and contracts see the list of its items.
#[derive(Debug, Drop)]
pub struct List<T> {
    items: Vec<T>,
}

impl<T> Model for List<T> {
    ghost use Rattle.std.specs.Prelude.{List};
    ghost use Rattle.std.specs.Coded.{coded_list};

    ghost Value = { List T };

    ghost coded = { coded_list T.code };

    ghost view = { λ it. it.items.items };
}

impl<T> List<T> {
    /// A list without items. Takes no memory.
    pub fn new(alloc: Global) -> List<T>
        ensures { result ≡ [] }
    {
        List {
            items: Vec::new(alloc),
        }
    }

    /// The number of items.
    pub fn len(&self) -> usize
        ensures { result ≡ length self.now }
    {
        self.items.len()
    }

    /// The item at a place counted from 0; `None` exactly where the place is not below the length.
    pub fn get(&self, at: usize) -> Option<&T>
        ensures value { option_copied result ≡ slice_get self.now at }
        ensures within { OnSome result (at < length self.now) }
    {
        self.items.get(at)
    }

    /// All items.
    pub fn items(&self) -> &[T]
        ensures { result.now ≡ self.now }
    {
        self.items.as_slice()
    }

    /// The items themselves, to be taken one by one. Takes no memory.
    pub fn into_vec(self) -> Vec<T>
        ensures { result.items ≡ self }
    {
        self.items
    }
}

impl<T: Drop> List<T> {
    /// Appends an item, or changes nothing.
    pub fn push(&mut self, item: T) -> Result<(), Memory>
        ensures ok { OnOk result (self.new ≡ self.old ++ item ∷ []) }
        ensures err { OnErr result (self.new ≡ self.old) }
    {
        self.items.push(item)?;
        Ok(())
    }

    /// Puts an item at a place, and hands back the old one. Takes no memory.
    pub fn replace(&mut self, at: usize, item: T) -> T
        requires { at < length self.old }
        ensures old { slice_get self.old at ≡ Some result }
        ensures new { self.new ≡ slice_set self.old at item }
    {
        std::mem::replace(&mut self.items[at], item)
    }

    /// Keeps the first `to` items and drops the others. Takes no memory.
    pub fn cut(&mut self, to: usize)
        requires { to ≤ length self.old }
        ensures { self.new ≡ take to self.old }
    {
        self.items.truncate(to);
    }
}
