//! Refinement: groups of ranges, split in rounds by what their numbers name, until a round splits none.
//!
//! A group's number is the place of its first range, so what is left at the end are the kept ranges, and a round can only raise a number.

ghost use Rattle.std.specs.Prelude.{◌≡◌, ℕ, List, ◌∷◌, [], ◌+◌, ◌-◌, ◌<◌, ◌≤◌, ◌^◌, length, IfOk};
ghost use Rattle.bincl_match.specs.Crowding.{AreGroups};
ghost use Rattle.bincl_match.specs.Lawful.{IsLawful};
ghost use Rattle.bincl_match.specs.Refining as spec;
ghost use Rattle.bincl_match.specs.Refining.{AreKeysBy, ArePrepared, AreRefined, AreSettled, room};

use crate::groups::{firsts, groups_of};
use crate::prepared::Prepared;
use crate::range::RangeOf;
use st_base::{List, Memory};
use std::alloc::Global;

// ---- the start

// The key of a range that stands alone: its own place.
fn lone_key(alloc: Global, place: usize) -> Result<List<usize>, Memory>
    ensures { IfOk result (λ key. key ≡ 0 ∷ place ∷ []) }
{
    let mut key = List::new(alloc);
    key.push(0)?;
    key.push(place)?;
    Ok(key)
}

// The key of any other range: the group of its name and shape.
fn shared_key(alloc: Global, group: u32) -> Result<List<usize>, Memory>
    ensures { IfOk result (λ key. key ≡ 1 ∷ group ∷ []) }
{
    let mut key = List::new(alloc);
    key.push(1)?;
    key.push(group as usize)?;
    Ok(key)
}

// The first key of each range.
fn start_keys(
    alloc: Global,
    groups: &[u32],
    prepared: &[Prepared],
) -> Result<List<List<usize>>, Memory>
    requires same { length groups.now ≡ length prepared.now }
    ensures { IfOk result (λ keys. AreKeysBy (λ i p. spec.start_key groups.now i p.lone) prepared.now keys) }
{
    let mut keys = List::new(alloc);
    for i in 0..prepared.len() {
        if prepared[i].lone {
            let key = lone_key(alloc, i)?;
            keys.push(key)?;
            continue;
        }
        let key = shared_key(alloc, groups[i])?;
        keys.push(key)?;
    }
    Ok(keys)
}

// The groups by name and shape, without the ranges that stand alone.
fn start(alloc: Global, ranges: &[RangeOf], prepared: &[Prepared]) -> Result<List<u32>, Memory>
    requires prepared { ArePrepared ranges.now prepared.now }
    requires few { length ranges.now < 2 ^ 32 }
    ensures { IfOk result (λ groups. AreRefined ranges.now prepared.now groups) }
{
    let groups = groups_of(alloc, ranges)?;
    let keys = start_keys(alloc, groups.items(), prepared)?;
    let start = firsts(alloc, keys.items())?;
    Ok(start)
}

// ---- a round

// What a mark is with these groups.
fn group_of(groups: &[u32], mark: usize) -> usize
    ensures { result ≡ spec.group_of groups.now mark }
{
    if mark == 0 {
        return 0;
    }
    match groups.get(mark - 1) {
        Some(group) => *group as usize + 1,
        // No mark names a place past the last range.
        None => 1,
    }
}

// The group of the range at this place, and what its marks are.
fn signature(
    alloc: Global,
    groups: &[u32],
    place: usize,
    marks: &[usize],
) -> Result<List<usize>, Memory>
    requires within { place < length groups.now }
    ensures { IfOk result (λ key. key ≡ spec.signature groups.now place marks.now) }
{
    let mut key = List::new(alloc);
    key.push(groups[place] as usize)?;
    for mark in marks {
        key.push(group_of(groups, *mark))?;
    }
    Ok(key)
}

// The signature of each range.
fn signatures(
    alloc: Global,
    groups: &[u32],
    prepared: &[Prepared],
) -> Result<List<List<usize>>, Memory>
    requires same { length groups.now ≡ length prepared.now }
    ensures { IfOk result (λ keys. AreKeysBy (λ i p. spec.signature groups.now i p.marks) prepared.now keys) }
{
    let mut keys = List::new(alloc);
    for i in 0..prepared.len() {
        let key = signature(alloc, groups, i, prepared[i].marks.items())?;
        keys.push(key)?;
    }
    Ok(keys)
}

// The groups, split by their signatures.
fn split(
    alloc: Global,
    groups: &[u32],
    ranges: &[RangeOf],
    prepared: &[Prepared],
) -> Result<List<u32>, Memory>
    requires lawful { IsLawful ranges.now }
    requires prepared { ArePrepared ranges.now prepared.now }
    requires few { length ranges.now < 2 ^ 32 }
    requires refined { AreRefined ranges.now prepared.now groups.now }
    ensures refined { IfOk result (λ next. AreRefined ranges.now prepared.now next) }
    ensures falls { IfOk result (λ next. (next ≡ groups.now → ⊥) → room next < room groups.now) }
    ensures settled { IfOk result (λ next. next ≡ groups.now → AreSettled ranges.now groups.now) }
{
    let keys = signatures(alloc, groups, prepared)?;
    let next = firsts(alloc, keys.items())?;
    Ok(next)
}

// ---- all rounds

/// The groups that no round splits.
pub(crate) fn refine(
    alloc: Global,
    ranges: &[RangeOf],
    prepared: &[Prepared],
) -> Result<List<u32>, Memory>
    requires lawful { IsLawful ranges.now }
    requires prepared { ArePrepared ranges.now prepared.now }
    requires few { length ranges.now < 2 ^ 32 }
    ensures refined { IfOk result (λ groups. AreRefined ranges.now prepared.now groups) }
    ensures settled { IfOk result (λ groups. AreSettled ranges.now groups) }
{
    let mut groups = start(alloc, ranges, prepared)?;
    loop {
        let next = split(alloc, groups.items(), ranges, prepared)?;
        if next.items() == groups.items() {
            return Ok(groups);
        }
        groups = next;
    }
}
