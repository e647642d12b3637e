ghost use Rattle.std.specs.Prelude.{◌≡◌, ◌+◌, ◌<◌, ◌^◌, length, Err, IfOk};
ghost use Rattle.st_base.specs.declared.fault.Fault.{Fault};
ghost use Rattle.stab_units.specs.ObjectUnits.{UnitsFault, UnitsFaultAfter, strings_in};
ghost use Rattle.type_graph.specs.Worlds as spec;

use nlist_codec::{Named, defines_name};
use st_base::{List, Memory, Refused, Steps, Text};
use stab_units::{Unit, units};
use std::alloc::Global;
use std::sync::ledger::Ledger;

/// A name that other objects see, and its value.
#[derive(Debug, Drop)]
pub struct External {
    pub name: Text,
    pub value: u32,
}

/// The units of a file in order, and its externals: the entries of kind 3, 5, 7 or 9 in order.
#[derive(Debug, Drop)]
pub struct World {
    pub units: List<Unit>,
    pub externals: List<External>,
}

fn is_external(entry: &Named) -> bool
    ensures { result ≡ spec.is_external entry.now }
{
    defines_name(entry.kind)
}

fn external_of(alloc: Global, entry: &Named) -> Result<External, Memory>
    ensures { IfOk result (λ external. external ≡ spec.external_of entry.now) }
{
    Ok(External {
        name: entry.name.copy(alloc)?,
        value: entry.value,
    })
}

/// The externals of an entry list in order: the entries of kind 3, 5, 7 or 9, each with its name and its value.
///
/// Refused only when out of memory. After a.out(5), on `n_type` and N_EXT.
pub fn externals(alloc: Global, entries: &List<Named>) -> Result<List<External>, Memory>
    ensures { IfOk result (λ externals. externals ≡ spec.externals_of entries.now) }
{
    let mut externals = List::new(alloc);
    let entries = entries.items();
    for entry in entries {
        if is_external(entry) {
            externals.push(external_of(alloc, entry)?)?;
        }
    }
    Ok(externals)
}

/// The world of an object: the units of its entries, where text ends at this address, and its externals.
///
/// Refused as `units` refuses: at the first fault of the outline, or else at the first fault of a string, with the number of its
/// entry and the place in the string. One step is taken for each string that is parsed: where the outline is refused none, and where
/// a string is refused one for each up to and with it. Takes memory for all symbols; out of memory is an answer of its own. After "The
/// stabs debug format" and a.out(5); the faults are this project's own.
pub fn world_of<L: Ledger>(
    alloc: Global,
    entries: &List<Named>,
    text_end: u32,
    steps: &mut Steps<L>,
) -> Result<World, Refused>
    requires { length entries.now < 2 ^ 32 }
    ensures found { IfOk result (spec.IsWorldOf text_end entries.now) }
    ensures refused { (f : Fault) → result ≡ Err (Refused.At f) → UnitsFault text_end entries.now f }
    // Where the outline is refused no string is parsed, and where a string is, those before it and it.
    ensures stopped { (f : Fault) → result ≡ Err (Refused.At f) → UnitsFaultAfter text_end entries.now f steps.old steps.new }
    // Each string is parsed once.
    ensures ticks { IfOk result (λ world. steps.new ≡ steps.old + strings_in text_end entries.now) }
{
    Ok(World {
        units: units(alloc, entries, text_end, steps)?,
        externals: externals(alloc, entries)?,
    })
}
