ghost use Rattle.std.specs.Prelude.{◌≡◌, [], OnOk, OnErr};
ghost use Rattle.std.specs.FinMap.{insert, empty};

use crate::call::Access;
use crate::files::{Files, Loaded, Stored};
use crate::held_file::{HeldFile, load_copy};
use http_server::Log;
use st_base::{List, Memory, Text};
use std::alloc::Global;
use std::marker::Model;

/// Files in memory that never fail. What a name was given before stays in memory until the files are
/// dropped.
#[derive(Drop)]
pub struct SureFiles {
    files: List<HeldFile>,
    calls: Log<Text, Access>,
}

impl Model for SureFiles {
    ghost use Rattle.outside.specs.InMemory.{SureContents, sure_code};

    ghost Value = { SureContents };

    ghost coded = { sure_code };

    ghost use Rattle.outside.specs.Held.{contents_of};

    ghost view = { λ s. record { contents = contents_of s.files; calls = s.calls.items } };
}

impl SureFiles {
    /// Files without contents. Takes no memory.
    pub fn new(alloc: Global) -> SureFiles
        ensures { result ≡ record { contents = empty; calls = [] } }
    {
        SureFiles {
            files: List::new(alloc),
            calls: Log::new(),
        }
    }

    /// Sets the content of a name, or changes nothing.
    pub fn hold(&mut self, name: Text, bytes: Text) -> Result<(), Memory>
        ensures ok { OnOk result (self.new ≡ record self.old { contents = insert self.old.contents name bytes }) }
        ensures err { OnErr result (self.new ≡ self.old) }
    {
        self.files.push(HeldFile { name, bytes })
    }
}

impl Files for SureFiles {
    ghost use Rattle.std.specs.Prelude.{Some, None};

    ghost held = { λ s. Some s.contents };

    ghost load_faults = { λ _. 0 };

    ghost store_faults = { λ _. 0 };

    ghost last_failed = { λ _. None };

    ghost calls = { λ s. s.calls };

    fn load(&mut self, alloc: Global, name: Text, most: u64) -> Loaded {
        self.calls = self.calls.and(&name, &Access::Load(most));
        load_copy(alloc, self.files.items(), name.bytes(), most)
    }

    fn store(&mut self, alloc: Global, name: &Text, bytes: &Text) -> Stored {
        self.calls = self.calls.and(name, &Access::Store);
        match HeldFile::copy(alloc, name, bytes) {
            Ok(file) => match self.files.push(file) {
                Ok(()) => Stored::Done,
                Err(_) => Stored::Memory,
            },
            Err(_) => Stored::Memory,
        }
    }
}
