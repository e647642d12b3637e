//! The ranges of entries of which they are known but for the numbers of units.

ghost use Rattle.std.specs.Prelude.{◌≡◌, ◌<◌, ◌^◌, ◌++◌, length, map, IfOk, OnOk};
ghost use Rattle.bincl_match.specs.Lawful.{IsLawful};
ghost use Rattle.bincl_match.specs.Ranges.{AreFoundButUnits, AreRanges};
ghost use Rattle.bincl_match.specs.Reading.{unit_numbers};

use crate::beside::all_changed;
use crate::found::Found;
use crate::range::RangeOf;
use crate::reading::told;
use nlist_codec::Named;
use st_base::{List, Memory, Refused};
use stab_units::{HeaderMark, Marks, UnitSpan, one_outline, outline};
use std::alloc::Global;

// Appends the number of a unit for each of its headers.
fn put_number(out: &mut List<u32>, number: u32, headers: &[HeaderMark]) -> Result<(), Memory>
    ensures { OnOk result (out.new ≡ out.old ++ map (λ h. number) headers.now) }
{
    for _header in headers {
        out.push(number)?;
    }
    Ok(())
}

// For each header of the spans the number of its unit.
fn all_numbers(alloc: Global, spans: &[UnitSpan]) -> Result<List<u32>, Memory>
    requires { length spans.now < 2 ^ 32 }
    ensures { IfOk result (λ numbers. numbers ≡ unit_numbers 0 spans.now) }
{
    let mut out = List::new(alloc);
    for (number, span) in spans.iter().enumerate() {
        put_number(&mut out, number as u32, span.headers.items())?;
    }
    Ok(out)
}

// The header ranges of entries of which these are known but for the numbers of their units.
fn join_list(
    alloc: Global,
    entries: &List<Named>,
    text_end: u32,
    found: List<RangeOf>,
) -> Result<List<RangeOf>, Memory>
    requires few { length entries.now < 2 ^ 32 }
    requires found { AreFoundButUnits text_end entries.now found }
    ensures ranges { IfOk result (λ ranges. AreRanges text_end entries.now ranges) }
    ensures lawful { IfOk result (λ ranges. IsLawful ranges) }
    ensures few { IfOk result (λ ranges. length ranges < 2 ^ 32) }
{
    one_outline();
    match outline(alloc, entries, text_end, Marks::Object) {
        Ok(spans) => {
            let numbers = all_numbers(alloc, spans.items())?;
            let placed = all_changed(alloc, found, numbers.items())?;
            let ranges = told(alloc, placed)?;
            Ok(ranges)
        }
        // entries of which ranges are known have no fault
        Err(Refused::At(_)) => unreachable!(),
        Err(Refused::Memory) => Err(Memory),
    }
}

/// The header ranges of entries of which they are known but for the numbers of their units, as where several lists stand one after
/// the other. No string is parsed.
///
/// `text_end` is the address at which text ends, and `found` has the ranges as `find_ranges` finds them, in order, whatever units they
/// are said to be of. Each unit of the entries takes as many of them as it has headers; then it is decided, as by `ranges`, which name
/// and shape some unit has twice. Entries of which ranges are known have no fault. Takes memory for the ranges; out of memory is its
/// own answer.
pub fn join_ranges(
    alloc: Global,
    entries: &List<Named>,
    text_end: u32,
    found: Found,
) -> Result<List<RangeOf>, Memory>
    requires few { length entries.now < 2 ^ 32 }
    requires found { AreFoundButUnits text_end entries.now found }
    ensures ranges { IfOk result (λ ranges. AreRanges text_end entries.now ranges) }
    ensures lawful { IfOk result (λ ranges. IsLawful ranges) }
    ensures few { IfOk result (λ ranges. length ranges < 2 ^ 32) }
{
    match join_list(alloc, entries, text_end, found.into_list()) {
        Ok(ranges) => Ok(ranges),
        Err(why) => Err(why),
    }
}
