ghost use Rattle.std.specs.Prelude.{◌≡◌, ◌≤◌, ◌↔◌, [], ◌∷◌, ◌++◌, Contains, OnOk, OnErr};
ghost use Rattle.std.specs.FinMap.{insert, empty};
ghost use Rattle.outside.specs.Calls.{load_of, store_of, then_call};
ghost use Rattle.outside.specs.Causes.{Loads, Stores, last_after};
ghost use Rattle.outside.specs.InMemory.{after_load, after_store};

use crate::call::Access;
use crate::files::{Files, Loaded, Stored};
use crate::held_file::{HeldFile, load_copy};
use http_server::Log;
use st_base::{List, Memory, Text};
use std::alloc::Global;
use std::marker::Model;

/// Files in memory, with the numbers of the calls that are to fail. The first call, a load or a store, has
/// the number 0. What a name was given before stays in memory until the files are dropped.
#[derive(Drop)]
pub struct MemoryFiles {
    files: List<HeldFile>,
    failing: List<u64>,
    count: u64,
    load_faults: u64,
    store_faults: u64,
    last_failed: Option<Text>,
    calls: Log<Text, Access>,
}

impl Model for MemoryFiles {
    ghost use Rattle.outside.specs.InMemory.{FilesInMemory, files_code};

    ghost Value = { FilesInMemory };

    ghost coded = { files_code };

    ghost use Rattle.outside.specs.Held.{contents_of};

    ghost view = { λ s. record { contents = contents_of s.files; failing = s.failing; count = s.count; load_faults = s.load_faults; store_faults = s.store_faults; last_failed = s.last_failed; calls = s.calls.items } };
}

impl MemoryFiles {
    /// Files without contents, of which no call is to fail. Takes no memory.
    pub fn new(alloc: Global) -> MemoryFiles
        ensures { result ≡ record { contents = empty; failing = []; count = 0; load_faults = 0; store_faults = 0; last_failed = None; calls = [] } }
    {
        MemoryFiles {
            files: List::new(alloc),
            failing: List::new(alloc),
            count: 0,
            load_faults: 0,
            store_faults: 0,
            last_failed: None,
            calls: Log::new(),
        }
    }

    /// Sets the content of a name, or changes nothing. It is no call that can be told to fail.
    pub fn hold(&mut self, name: Text, bytes: Text) -> Result<(), Memory>
        ensures ok { OnOk result (self.new ≡ record self.old { contents = insert self.old.contents name bytes }) }
        ensures err { OnErr result (self.new ≡ self.old) }
    {
        self.files.push(HeldFile { name, bytes })
    }

    /// Has the call of this number fail too, or changes nothing.
    pub fn fail_at(&mut self, call: u64) -> Result<(), Memory>
        ensures ok { OnOk result (self.new ≡ record self.old { failing = self.old.failing ++ call ∷ [] }) }
        ensures err { OnErr result (self.new ≡ self.old) }
    {
        self.failing.push(call)
    }
}

impl Files for MemoryFiles {
    ghost use Rattle.std.specs.Prelude.{Some};

    ghost held = { λ s. Some s.contents };

    ghost load_faults = { λ s. s.load_faults };

    ghost store_faults = { λ s. s.store_faults };

    ghost last_failed = { λ s. s.last_failed };

    ghost calls = { λ s. s.calls };

    /// Fails exactly where this call's number is one of those that are to fail.
    fn load(&mut self, alloc: Global, name: Text, most: u64) -> Loaded
        ensures fails { (result ≡ Loaded.Failed) ↔ Contains self.old.failing self.old.count }
        ensures after { self.new ≡ after_load self.old name most result }
        ensures answer { Loads (Some self.old.contents) self.old.load_faults self.new.load_faults name most result }
        ensures last { self.new.last_failed ≡ last_after (Some self.old.contents) self.old.last_failed name result }
        ensures contents { self.new.contents ≡ self.old.contents }
        ensures later { self.old.load_faults ≤ self.new.load_faults }
        ensures stores { self.new.store_faults ≡ self.old.store_faults }
        ensures called { self.new.calls ≡ then_call self.old.calls (load_of name most) }
    {
        let call = self.count;
        self.count = call.saturating_add(1);
        self.calls = self.calls.and(&name, &Access::Load(most));
        if self.failing.items().contains(&call) {
            self.load_faults = self.load_faults.saturating_add(1);
            self.last_failed = Some(name);
            return Loaded::Failed;
        }
        load_copy(alloc, self.files.items(), name.bytes(), most)
    }

    /// Fails exactly where this call's number is one of those that are to fail, and then changes no content.
    fn store(&mut self, alloc: Global, name: &Text, bytes: &Text) -> Stored
        ensures fails { (result ≡ Stored.Failed) ↔ Contains self.old.failing self.old.count }
        ensures after { self.new ≡ after_store self.old name.now bytes.now result }
        ensures answer { Stores (Some self.old.contents) (Some self.new.contents) self.old.store_faults self.new.store_faults name.now bytes.now result }
        ensures last { self.new.last_failed ≡ self.old.last_failed }
        ensures later { self.old.store_faults ≤ self.new.store_faults }
        ensures loads { self.new.load_faults ≡ self.old.load_faults }
        ensures called { self.new.calls ≡ then_call self.old.calls (store_of name.now) }
    {
        let call = self.count;
        self.count = call.saturating_add(1);
        self.calls = self.calls.and(name, &Access::Store);
        if self.failing.items().contains(&call) {
            self.store_faults = self.store_faults.saturating_add(1);
            return Stored::Failed;
        }
        match HeldFile::copy(alloc, name, bytes) {
            Ok(file) => match self.files.push(file) {
                Ok(()) => Stored::Done,
                Err(_) => Stored::Memory,
            },
            Err(_) => Stored::Memory,
        }
    }
}
