//! The header ranges of several objects, one behind the other, as they were found when the objects were checked.

ghost use Rattle.std.specs.Prelude.{◌≡◌, ◌++◌, IfOk, OnOk};
ghost use Rattle.aout_link.specs.Gathering.{AreAllFound};

use crate::checked::Checked;
use bincl_match::{Found, RangeOf};
use st_base::Memory;
use std::alloc::Global;

// Puts copies of ranges behind those that are there.
fn put_copies(alloc: Global, out: &mut Found, ranges: &[RangeOf]) -> Result<(), Memory>
    ensures { OnOk result (out.new ≡ out.old ++ ranges.now) }
{
    for range in ranges {
        let copy = range.copy(alloc)?;
        out.push(copy)?;
    }
    Ok(())
}

/// Copies of the ranges of all objects in order, those of each as they were found. Takes memory for the copies; out of memory is the one
/// refusal.
pub(crate) fn gather(alloc: Global, objects: &[Checked]) -> Result<Found, Memory>
    ensures { IfOk result (λ ranges. AreAllFound objects.now ranges) }
{
    let mut out = Found::new(alloc);
    for object in objects {
        let ranges = object.ranges();
        put_copies(alloc, &mut out, ranges.items())?;
    }
    Ok(out)
}
