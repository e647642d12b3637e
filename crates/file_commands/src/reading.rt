//! The world of an object, for a caller that counts no steps.

ghost use Rattle.std.specs.Prelude.{◌≡◌, ◌<◌, ◌^◌, length, Err, IfOk};
ghost use Rattle.st_base.specs.declared.fault.Fault.{Fault};
ghost use Rattle.st_base.specs.declared.fault.Refused.{Refused};
ghost use Rattle.aout_object.specs.Objects.{named_of};
ghost use Rattle.unit_index.specs.Expanding.{IsExpanded, ExpandFault};
ghost use Rattle.file_commands.specs.QueryOutcomes.{IsWorld, WorldFault, text_end};

use aout_object::Object;
use nlist_codec::Named;
use st_base::{List, Memory, Refused, Steps};
use std::alloc::Global;
use std::marker::Brand;
use std::sync::ledger::{Blank, Ledger};
use type_graph::World;
use unit_index::expand;

/// The entries of an object with their names, and the address at which its text ends. The object is let go.
#[derive(Debug, Drop)]
pub(crate) struct Entries {
    pub(crate) named: List<Named>,
    pub(crate) text_end: u32,
}

/// Names the entries of an object, of which there are fewer than 2^32, and lets the object go.
pub(crate) fn entries_of(alloc: Global, object: Object) -> Result<Entries, Memory>
    ensures named { IfOk result (λ entries. entries.named ≡ named_of object) }
    ensures text_end { IfOk result (λ entries. entries.text_end ≡ text_end object) }
    ensures few { IfOk result (λ entries. length entries.named < 2 ^ 32) }
{
    let _lawful = object.parts();
    let named = object.named(alloc)?;
    Ok(Entries {
        named,
        text_end: object.text_end(),
    })
}

fn expand_counted<L: Ledger>(
    alloc: Global,
    entries: &Entries,
    blank: Blank,
) -> Result<World, Refused>
    requires few { length entries.now.named < 2 ^ 32 }
    requires name { blank.name ≡ L.name }
    requires parts { blank.parts ≡ L.parts }
    requires whole { blank.parts ≡ 1 }
    ensures found { IfOk result (IsExpanded entries.now.text_end entries.now.named) }
    ensures few { IfOk result (λ world. length world.units < 2 ^ 32) }
    ensures refused { (f : Fault) → result ≡ Err (Refused.At f) → ExpandFault entries.now.text_end entries.now.named f }
{
    let mut steps = Steps::<L>::new(blank);
    expand(alloc, &entries.named, entries.text_end, &mut steps)
}

/// The world of entries: their units, in which each excluded header has the symbols of the range that it stands for, and their externals.
///
/// Refused with the first fault of the outline, else of the first excluded header that does not stand for exactly one range, or else of
/// the first string that spells no symbol. Takes memory for all symbols.
pub(crate) fn expand_entries(alloc: Global, entries: &Entries) -> Result<World, Refused>
    requires few { length entries.now.named < 2 ^ 32 }
    ensures found { IfOk result (IsExpanded entries.now.text_end entries.now.named) }
    ensures few { IfOk result (λ world. length world.units < 2 ^ 32) }
    ensures refused { (f : Fault) → result ≡ Err (Refused.At f) → ExpandFault entries.now.text_end entries.now.named f }
{
    expand_counted::<Brand>(alloc, entries, Blank::new(1))
}

/// The world of an object, as by `expand_entries`. The object is let go once its entries are named. Takes memory for the names of all
/// entries and for all symbols.
pub(crate) fn read_world(alloc: Global, object: Object) -> Result<World, Refused>
    ensures found { IfOk result (IsWorld object) }
    ensures few { IfOk result (λ world. length world.units < 2 ^ 32) }
    ensures refused { (f : Fault) → result ≡ Err (Refused.At f) → WorldFault object f }
{
    let entries = entries_of(alloc, object)?;
    expand_entries(alloc, &entries)
}
