ghost use Rattle.std.specs.Prelude.{◌≡◌, ◌≤◌, List, ℕ, Option};
ghost use Rattle.outside.specs.Calls.{Call, load_of, store_of, then_call};
ghost use Rattle.outside.specs.Causes.{Contents, Loads, Stores, last_after};

use st_base::Text;
use std::alloc::Global;

/// What a load answers.
#[derive(Debug, Drop)]
pub enum Loaded {
    /// The whole content.
    Bytes(Text),
    /// There is no file of this name.
    Absent,
    /// The content has more bytes than were asked for.
    Long,
    /// The load failed.
    Failed,
    /// Out of memory.
    Memory,
}

/// What a store answers.
#[derive(Clone, Copy, Debug, Drop, PartialEq, Eq)]
pub enum Stored {
    /// The name holds the bytes.
    Done,
    /// The store failed.
    Failed,
    /// Out of memory.
    Memory,
}

/// Contents by their names. Names and contents are any bytes.
pub trait Files {
    /// The contents by their names, where the files tell them.
    ghost held: { Self → Option Contents };

    /// How many loads failed, or as many as the count can hold.
    ghost load_faults: { Self → ℕ };

    /// How many stores failed, or as many as the count can hold.
    ghost store_faults: { Self → ℕ };

    /// The name of the last failed load, if there is one.
    ghost last_failed: { Self → Option (List ℕ) };

    /// The calls so far, in order, whatever they answered.
    ghost calls: { Self → List Call };

    /// The content of a name, if it has at most `most` bytes. No content changes.
    fn load(&mut self, alloc: Global, name: Text, most: u64) -> Loaded
        ensures answer { Loads (held self.old) (load_faults self.old) (load_faults self.new) name most result }
        ensures last { last_failed self.new ≡ last_after (held self.old) (last_failed self.old) name result }
        ensures contents { held self.new ≡ held self.old }
        ensures later { load_faults self.old ≤ load_faults self.new }
        ensures stores { store_faults self.new ≡ store_faults self.old }
        ensures called { calls self.new ≡ then_call (calls self.old) (load_of name most) };

    /// Makes these bytes the content of a name. After out of memory nothing changed; after a failure
    /// nothing is said of this name, and all other contents stay.
    fn store(&mut self, alloc: Global, name: &Text, bytes: &Text) -> Stored
        ensures answer { Stores (held self.old) (held self.new) (store_faults self.old) (store_faults self.new) name.now bytes.now result }
        ensures last { last_failed self.new ≡ last_failed self.old }
        ensures later { store_faults self.old ≤ store_faults self.new }
        ensures loads { load_faults self.new ≡ load_faults self.old }
        ensures called { calls self.new ≡ then_call (calls self.old) (store_of name.now) };
}
