ghost use Rattle.std.specs.Prelude.{◌≡◌, ◌≢◌, Some, IfOk};
ghost use Rattle.std.specs.Option.{option_copied};
ghost use Rattle.std.specs.FinMap.{get};
ghost use Rattle.outside.specs.Causes.{Loads};
ghost use Rattle.outside.specs.Held.{contents_of};

use crate::files::Loaded;
use st_base::{Memory, Text};
use std::alloc::Global;

/// A name and the content that it was given.
#[derive(Debug, Drop)]
pub struct HeldFile {
    pub name: Text,
    pub bytes: Text,
}

impl HeldFile {
    /// A name and a content of its own, equal to these.
    pub fn copy(alloc: Global, name: &Text, bytes: &Text) -> Result<HeldFile, Memory>
        ensures { IfOk result (λ file. file ≡ record { name = name.now; bytes = bytes.now }) }
    {
        Ok(HeldFile {
            name: name.copy(alloc)?,
            bytes: bytes.copy(alloc)?,
        })
    }
}

/// The content that a name was given last.
fn last_given<'a>(files: &'a [HeldFile], name: &[u8]) -> Option<&'a Text>
    ensures { option_copied result ≡ get (contents_of files.now) name.now }
{
    let mut found = None;
    for file in files {
        if name == file.name.bytes() {
            found = Some(&file.bytes);
        }
    }
    found
}

/// A copy of the content that a name was given last, if it has at most `most` bytes.
pub fn load_copy(alloc: Global, files: &[HeldFile], name: &[u8], most: u64) -> Loaded
    ensures answer { Loads (Some (contents_of files.now)) 0 0 name.now most result }
    ensures sure { result ≢ Loaded.Failed }
{
    match last_given(files, name) {
        None => Loaded::Absent,
        Some(bytes) => {
            if bytes.bytes().len() as u64 > most {
                return Loaded::Long;
            }
            match bytes.copy(alloc) {
                Ok(copy) => Loaded::Bytes(copy),
                Err(_) => Loaded::Memory,
            }
        }
    }
}
