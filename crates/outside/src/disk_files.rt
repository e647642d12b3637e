ghost use Rattle.std.specs.Prelude.{◌≡◌, ◌≢◌, ◌≤◌, []};
ghost use Rattle.outside.specs.Calls.{load_of, store_of, then_call};
ghost use Rattle.outside.specs.Causes.{Loads, Stores, last_after};
ghost use Rattle.outside.specs.OnDisk.{after_load, after_store};

use crate::call::Access;
use crate::files::{Files, Loaded, Stored};
use crate::transfer::{read_whole, write_whole};
use http_server::Log;
use st_base::Text;
use std::alloc::Global;
use std::fs::File;
use std::io::ErrorKind;
use std::marker::Model;

/// The files of a runtime, by their paths. It tells no contents. A name that is not UTF-8 is a failed call.
///
/// A file that is not found is `Absent`, and it counts as a failed load; a directory, a file that may not be
/// read and every other error of opening or reading is `Failed`. A store makes the file anew, and a failed
/// one may leave a part of the bytes.
#[derive(Drop)]
pub struct DiskFiles<R: std::rt::Files + Drop> {
    rt: R,
    load_faults: u64,
    store_faults: u64,
    last_failed: Option<Text>,
    calls: Log<Text, Access>,
}

impl<R: std::rt::Files + Drop> Model for DiskFiles<R> {
    ghost use Rattle.outside.specs.OnDisk.{FilesOnDisk};

    ghost Value = { FilesOnDisk };

    ghost view = { λ s. record { load_faults = s.load_faults; store_faults = s.store_faults; last_failed = s.last_failed; calls = s.calls.items } };
}

impl<R: std::rt::Files + Drop> DiskFiles<R> {
    /// The files of this runtime, of which no call has failed yet. Takes no memory.
    pub fn new(rt: R) -> DiskFiles<R>
        ensures { result ≡ record { load_faults = 0; store_faults = 0; last_failed = None; calls = [] } }
    {
        DiskFiles {
            rt,
            load_faults: 0,
            store_faults: 0,
            last_failed: None,
            calls: Log::new(),
        }
    }
}

/// The content of the file at a path, if it has at most `most` bytes.
fn load_path<R: std::rt::Files>(rt: &R, alloc: Global, name: &Text, most: u64) -> Loaded
    ensures { Loads None 0 1 name.now most result }
{
    let Ok(path) = std::str::from_utf8(name.bytes()) else {
        return Loaded::Failed;
    };
    match File::open(rt, path) {
        Ok(mut file) => read_whole(alloc, &mut file, most),
        Err(error) => {
            if error.kind() == ErrorKind::NotFound {
                Loaded::Absent
            } else {
                Loaded::Failed
            }
        }
    }
}

/// Makes the file at a path anew, and tells whether it took all bytes.
fn store_path<R: std::rt::Files>(rt: &R, name: &Text, bytes: &Text) -> bool {
    let Ok(path) = std::str::from_utf8(name.bytes()) else {
        return false;
    };
    match File::create(rt, path) {
        Ok(mut file) => write_whole(&mut file, bytes.bytes()),
        Err(_) => false,
    }
}

impl<R: std::rt::Files + Drop> Files for DiskFiles<R> {
    ghost use Rattle.std.specs.Prelude.{None};

    ghost held = { λ _. None };

    ghost load_faults = { λ s. s.load_faults };

    ghost store_faults = { λ s. s.store_faults };

    ghost last_failed = { λ s. s.last_failed };

    ghost calls = { λ s. s.calls };

    /// The reader is asked for at most `most` + 1 bytes.
    fn load(&mut self, alloc: Global, name: Text, most: u64) -> Loaded
        ensures after { self.new ≡ after_load self.old name most result }
        ensures answer { Loads None self.old.load_faults self.new.load_faults name most result }
        ensures last { self.new.last_failed ≡ last_after None self.old.last_failed name result }
        ensures later { self.old.load_faults ≤ self.new.load_faults }
        ensures stores { self.new.store_faults ≡ self.old.store_faults }
        ensures called { self.new.calls ≡ then_call self.old.calls (load_of name most) }
    {
        self.calls = self.calls.and(&name, &Access::Load(most));
        let loaded = load_path(&self.rt, alloc, &name, most);
        if matches!(&loaded, Loaded::Failed | Loaded::Absent) {
            self.load_faults = self.load_faults.saturating_add(1);
            self.last_failed = Some(name);
        }
        loaded
    }

    /// Takes no memory.
    fn store(&mut self, _alloc: Global, name: &Text, bytes: &Text) -> Stored
        ensures no_memory { result ≢ Stored.Memory }
        ensures after { self.new ≡ after_store self.old name.now result }
        ensures answer { Stores None None self.old.store_faults self.new.store_faults name.now bytes.now result }
        ensures last { self.new.last_failed ≡ self.old.last_failed }
        ensures later { self.old.store_faults ≤ self.new.store_faults }
        ensures loads { self.new.load_faults ≡ self.old.load_faults }
        ensures called { self.new.calls ≡ then_call self.old.calls (store_of name.now) }
    {
        self.calls = self.calls.and(name, &Access::Store);
        if store_path(&self.rt, name, bytes) {
            Stored::Done
        } else {
            self.store_faults = self.store_faults.saturating_add(1);
            Stored::Failed
        }
    }
}
