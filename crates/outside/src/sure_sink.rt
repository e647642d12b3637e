ghost use Rattle.std.specs.Prelude.{◌≡◌, []};

use crate::sink::{Put, Sink};
use st_base::Text;
use std::alloc::Global;
use std::marker::Model;

/// A sink in memory that never fails.
#[derive(Debug, Drop)]
pub struct SureSink {
    text: Text,
}

impl Model for SureSink {
    ghost use Rattle.std.specs.Prelude.{List, ℕ};

    ghost Value = { List ℕ };

    ghost view = { λ s. s.text };
}

impl SureSink {
    /// A sink into which nothing was written. Takes no memory.
    pub fn new(alloc: Global) -> SureSink
        ensures { result ≡ [] }
    {
        SureSink {
            text: Text::new(alloc),
        }
    }

    /// All bytes that were written.
    pub fn written(&self) -> &[u8]
        ensures { result.now ≡ self.now }
    {
        self.text.bytes()
    }
}

impl Sink for SureSink {
    ghost use Rattle.std.specs.Prelude.{Some};

    ghost written = { λ s. Some s };

    ghost faults = { λ _. 0 };

    fn put(&mut self, bytes: &[u8]) -> Put {
        match self.text.extend(bytes) {
            Ok(()) => Put::Done,
            Err(_) => Put::Memory,
        }
    }
}
