ghost use Rattle.std.specs.Prelude.{◌≡◌, ◌<◌, ◌^◌, length, None, Some, Err, IfOk};
ghost use Rattle.st_base.specs.declared.fault.Fault.{Fault};
ghost use Rattle.st_base.specs.declared.fault.Refused.{Refused};
ghost use Rattle.unit_outlines.specs.Outlines.{OutlineFault, units_of};

use crate::faults::outline_fault;
use crate::outline_types::{Marks, UnitSpan};
use crate::spans::unit_spans;
use nlist_codec::Named;
use st_base::{List, Refused};
use std::alloc::Global;

/// The spans of the units of a list of entries, where text ends at `text_end`.
///
/// A unit begins at each N_SO with a name, and ends before the next one; an N_SO without a name says where its text ends, and one
/// whose name ends in `/` names the directory of the unit that begins at the next entry. The list is refused with the fault at
/// the smallest entry, and there the one of the smallest number; the place is the number of the entry, and within is 0:
/// `NO_UNIT`, `CONTINUATION`, `OPEN_HEADER`, `CLOSED_HEADER`, `BRACKETS`, `HEADERS`, `LONG`, and for the marks of an object
/// `EXCLUDED`. Takes memory for the spans; out of memory is its own answer. After "The stabs debug format"; the order of faults
/// and the limits are this project's own.
pub fn outline(
    alloc: Global,
    entries: &List<Named>,
    text_end: u32,
    marks: Marks,
) -> Result<List<UnitSpan>, Refused>
    requires { length entries.now < 2 ^ 32 }
    ensures found { IfOk result (λ spans. OutlineFault marks entries.now None × (spans ≡ units_of text_end entries.now)) }
    ensures refused { (f : Fault) → result ≡ Err (Refused.At f) → OutlineFault marks entries.now (Some f) }
{
    match outline_fault(entries.items(), marks) {
        Some(fault) => Err(Refused::At(fault)),
        None => match unit_spans(alloc, entries.items(), text_end) {
            Ok(spans) => Ok(spans),
            Err(_) => Err(Refused::Memory),
        },
    }
}
