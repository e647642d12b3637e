ghost use Rattle.std.specs.Prelude.{◌≡◌, ◌≤◌, List, ℕ, Option};
ghost use Rattle.outside.specs.Causes.{Puts};

/// What a put answers.
#[derive(Clone, Copy, Debug, Drop, PartialEq, Eq)]
pub enum Put {
    /// The bytes are appended.
    Done,
    /// The put failed.
    Failed,
    /// Out of memory.
    Memory,
}

/// Where bytes are written one after another.
pub trait Sink {
    /// The bytes written, where the sink tells them.
    ghost written: { Self → Option (List ℕ) };

    /// How many puts failed, or as many as the count can hold.
    ghost faults: { Self → ℕ };

    /// Appends bytes. After out of memory nothing changed; after a failure a prefix of them is appended.
    fn put(&mut self, bytes: &[u8]) -> Put
        ensures answer { Puts (written self.old) (written self.new) (faults self.old) (faults self.new) bytes.now result }
        ensures later { faults self.old ≤ faults self.new };
}
