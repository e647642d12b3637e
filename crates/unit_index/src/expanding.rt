//! The world of an image. First each unit is read by itself; then, for each excluded header, the symbols of the range that it stands for
//! are taken over with new numbers; last these are put into the units that were read.

ghost use Rattle.std.specs.Prelude.{◌≡◌, ◌+◌, ◌<◌, ◌^◌, length, Err, IfOk};
ghost use Rattle.st_base.specs.declared.fault.Fault.{Fault as SomeFault};
ghost use Rattle.stab_units.specs.ObjectUnits.{strings_in};
ghost use Rattle.unit_index.specs.Expanding.{IsExpanded, ExpandFault, ExpandFaultAfter};
ghost use Rattle.unit_index.specs.Filling as filling;
ghost use Rattle.unit_index.specs.Indexes.{AsMany};
ghost use Rattle.unit_index.specs.Filling.{units_with, AreFull};

use crate::filling::filled_units;
use crate::index::Index;
use crate::taking::all_taken;
use nlist_codec::Named;
use st_base::{List, Memory, Refused, Steps};
use stab_units::{Unit, read_spans};
use std::alloc::Global;
use std::sync::ledger::Ledger;
use type_graph::{World, externals};

// The units of an image, from those that were read.
fn expanded_units(alloc: Global, index: &Index, units: List<Unit>) -> Result<List<Unit>, Memory>
    requires many { AsMany index.now.outlines index.now.owners }
    requires full { AreFull index.now.outlines units }
    ensures { IfOk result (λ made. made ≡ units_with index.now.outlines units (filling.all_taken index.now.owners units index.now.outlines index.now.owners)) }
{
    let outlines = index.outlines().items();
    let lists = all_taken(alloc, outlines, index.owners().items(), units.items())?;
    Ok(filled_units(alloc, units, outlines, lists))
}

/// The world of an image with these entries, where text ends at `text_end`: its units, in which each N_EXCL has the symbols of the
/// header range that it stands for, and its externals.
///
/// A number `(file,number)` that is taken over gets the file that its own unit has for the same range: 0 stays 0, and a file that this
/// unit does not have, or has twice, becomes 65,536, which no symbol can name. Refused as `Index::build` refuses, else with the
/// fault of the first string that spells no symbol, as in `read_unit`. One step is taken for each string that is parsed: where
/// `Index::build` refuses none, and where a string is refused one for each up to and with it. Takes memory for the units; out of memory
/// is its own answer. After "The stabs debug format"; the number 65,536 is this project's own.
pub fn expand<L: Ledger>(
    alloc: Global,
    entries: &List<Named>,
    text_end: u32,
    steps: &mut Steps<L>,
) -> Result<World, Refused>
    requires { length entries.now < 2 ^ 32 }
    ensures found { IfOk result (IsExpanded text_end entries.now) }
    ensures refused { (f : SomeFault) → result ≡ Err (Refused.At f) → ExpandFault text_end entries.now f }
    ensures stopped { (f : SomeFault) → result ≡ Err (Refused.At f) → ExpandFaultAfter text_end entries.now f steps.old steps.new }
    ensures ticks { IfOk result (λ world. steps.new ≡ steps.old + strings_in text_end entries.now) }
{
    let index = match Index::build(alloc, entries, text_end) {
        Ok(index) => index,
        Err(refusal) => return Err(refusal),
    };
    let units = match read_spans(alloc, entries, index.outlines().items(), steps) {
        Ok(units) => units,
        Err(refusal) => return Err(refusal),
    };
    Ok(World {
        units: expanded_units(alloc, &index, units)?,
        externals: externals(alloc, entries)?,
    })
}
