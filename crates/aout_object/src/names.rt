ghost use Rattle.std.specs.Prelude.{◌≡◌, IfOk, All};
ghost use Rattle.strtab.specs.StringTable.{name_in};
ghost use Rattle.aout_object.specs.Making.{HasWholeName};
ghost use Rattle.aout_object.specs.Objects as spec;

use crate::object::Object;
use nlist_codec::{Entry, Named};
use st_base::{List, Memory, Text};
use std::alloc::Global;
use strtab::name_at;

// The name at an offset of a string table; empty where there is none.
fn name_of(alloc: Global, strings: &[u8], strx: u32) -> Result<Text, Memory>
    ensures { IfOk result (λ name. name ≡ spec.name_of (name_in strings.now strx)) }
{
    match name_at(strings, strx) {
        Ok(bytes) => Text::of(alloc, bytes),
        Err(_) => Ok(Text::new(alloc)),
    }
}

fn named_entry(alloc: Global, strings: &[u8], entry: &Entry) -> Result<Named, Memory>
    ensures { IfOk result (λ named. named ≡ spec.named_entry strings.now entry.now) }
{
    Ok(Named {
        kind: entry.kind,
        other: entry.other,
        desc: entry.desc,
        value: entry.value,
        name: name_of(alloc, strings, entry.strx)?,
    })
}

fn named_entries(alloc: Global, strings: &[u8], entries: &[Entry]) -> Result<List<Named>, Memory>
    ensures { IfOk result (λ named. named ≡ spec.all_named strings.now entries.now) }
{
    let mut named = List::new(alloc);
    for entry in entries {
        named.push(named_entry(alloc, strings, entry)?)?;
    }
    Ok(named)
}

impl Object {
    /// The entries of the symbol table in order, each with its name in place of the name's offset; the name of an entry without
    /// one is empty, and no name holds a zero byte. Out of memory is its only refusal.
    pub fn named(&self, alloc: Global) -> Result<List<Named>, Memory>
        ensures value { IfOk result (λ named. named ≡ spec.named_of self.now) }
        ensures whole { IfOk result (λ named. All HasWholeName named) }
    {
        named_entries(alloc, self.strings.bytes(), self.entries.items())
    }
}
