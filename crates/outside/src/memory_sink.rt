ghost use Rattle.std.specs.Prelude.{◌≡◌, ◌≤◌, ◌↔◌, [], ◌∷◌, ◌++◌, Contains, OnOk, OnErr};
ghost use Rattle.outside.specs.Causes.{Puts};
ghost use Rattle.outside.specs.InMemory.{after_put};

use crate::sink::{Put, Sink};
use st_base::{List, Memory, Text};
use std::alloc::Global;
use std::marker::Model;

/// A sink in memory, with the numbers of the puts that are to fail. The first put has the number 0.
#[derive(Debug, Drop)]
pub struct MemorySink {
    text: Text,
    failing: List<u64>,
    calls: u64,
    faults: u64,
}

impl Model for MemorySink {
    ghost use Rattle.outside.specs.InMemory.{SinkInMemory};

    ghost Value = { SinkInMemory };

    ghost view = { λ s. record { written = s.text; failing = s.failing; calls = s.calls; faults = s.faults } };
}

impl MemorySink {
    /// A sink into which nothing was written, and of which no put is to fail. Takes no memory.
    pub fn new(alloc: Global) -> MemorySink
        ensures { result ≡ record { written = []; failing = []; calls = 0; faults = 0 } }
    {
        MemorySink {
            text: Text::new(alloc),
            failing: List::new(alloc),
            calls: 0,
            faults: 0,
        }
    }

    /// Has the put of this number fail too, or changes nothing.
    pub fn fail_at(&mut self, call: u64) -> Result<(), Memory>
        ensures ok { OnOk result (self.new ≡ record self.old { failing = self.old.failing ++ call ∷ [] }) }
        ensures err { OnErr result (self.new ≡ self.old) }
    {
        self.failing.push(call)
    }

    /// All bytes that were written.
    pub fn written(&self) -> &[u8]
        ensures { result.now ≡ self.now.written }
    {
        self.text.bytes()
    }
}

impl Sink for MemorySink {
    ghost use Rattle.std.specs.Prelude.{Some};

    ghost written = { λ s. Some s.written };

    ghost faults = { λ s. s.faults };

    /// Fails exactly where this put's number is one of those that are to fail, and then appends nothing.
    fn put(&mut self, bytes: &[u8]) -> Put
        ensures fails { (result ≡ Put.Failed) ↔ Contains self.old.failing self.old.calls }
        ensures after { self.new ≡ after_put self.old bytes.now result }
        ensures answer { Puts (Some self.old.written) (Some self.new.written) self.old.faults self.new.faults bytes.now result }
        ensures later { self.old.faults ≤ self.new.faults }
    {
        let call = self.calls;
        self.calls = call.saturating_add(1);
        if self.failing.items().contains(&call) {
            self.faults = self.faults.saturating_add(1);
            return Put::Failed;
        }
        match self.text.extend(bytes) {
            Ok(()) => Put::Done,
            Err(_) => Put::Memory,
        }
    }
}
