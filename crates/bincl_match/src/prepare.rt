//! Ranges as refinement reads them: the number of a file becomes the place of the range that its header opens.

ghost use Rattle.std.specs.Prelude.{◌≡◌, ℕ, List, ◌+◌, ◌<◌, length, IfOk, Some, slice_get};
ghost use Rattle.bincl_match.specs.declared.range.RangeOf.{RangeOf as SomeRange};
ghost use Rattle.bincl_match.specs.Refining.{AreHeaders, ArePrepared, IsMarkFor, IsPrepared};

use crate::prepared::Prepared;
use crate::range::RangeOf;
use st_base::{List, Memory};
use std::alloc::Global;
use std::collections::HashMap;

// The mark of each unit and file that a header opens.
fn headers(alloc: Global, ranges: &[RangeOf]) -> Result<HashMap<(u32, u32), usize>, Memory>
    ensures { IfOk result (λ headers. AreHeaders ranges.now headers) }
{
    let mut headers = HashMap::new(alloc);
    for i in 0..ranges.len() {
        let range = &ranges[i];
        headers.insert((range.unit, range.file), i + 1)?;
    }
    Ok(headers)
}

// The mark of a number of a range of this unit, where it has one.
fn mark_for(headers: &HashMap<(u32, u32), usize>, unit: u32, number: u32) -> Option<usize>
    ensures { (ranges : List SomeRange) → AreHeaders ranges headers.now → IsMarkFor ranges unit number result }
{
    if number == 0 {
        return Some(0);
    }
    match headers.get(&(unit, number)) {
        Some(mark) => Some(*mark),
        None => None,
    }
}

fn prepare(
    alloc: Global,
    ranges: &[RangeOf],
    headers: &HashMap<(u32, u32), usize>,
    place: usize,
) -> Result<Prepared, Memory>
    requires headers { AreHeaders ranges.now headers.now }
    requires within { place < length ranges.now }
    ensures { IfOk result (λ p. (x : SomeRange) → slice_get ranges.now place ≡ Some x → IsPrepared ranges.now x p.lone p.marks) }
{
    let range = &ranges[place];
    let mut marks = List::new(alloc);
    if !range.candidate {
        return Ok(Prepared { lone: true, marks });
    }
    for number in range.numbers.items() {
        match mark_for(headers, range.unit, *number) {
            Some(mark) => marks.push(mark)?,
            None => return Ok(Prepared { lone: true, marks }),
        }
    }
    Ok(Prepared { lone: false, marks })
}

/// What refinement reads of each range.
pub(crate) fn prepare_all(alloc: Global, ranges: &[RangeOf]) -> Result<List<Prepared>, Memory>
    ensures { IfOk result (λ prepared. ArePrepared ranges.now prepared) }
{
    let headers = headers(alloc, ranges)?;
    let mut prepared = List::new(alloc);
    for place in 0..ranges.len() {
        let one = prepare(alloc, ranges, &headers, place)?;
        prepared.push(one)?;
    }
    Ok(prepared)
}
