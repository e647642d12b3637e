//! Which ranges have a name and shape that some unit has twice.

ghost use Rattle.std.specs.Prelude.{◌≡◌, ℕ, ◌+◌, ◌<◌, ◌^◌, List, [], ◌∷◌, ◌++◌, Some, slice_get, length, IfOk, OnOk, Bool, false};
ghost use Rattle.std.specs.List.{slice_index_or};
ghost use Rattle.bincl_match.specs.Crowding.{AreCrowded, AreGroups, CrowdedSoFar, Tells, Twice};

use crate::groups::groups_of;
use crate::range::RangeOf;
use st_base::{List, Memory};
use std::alloc::Global;
use std::collections::HashSet;

// So many flags that are not set.
fn no_flags(alloc: Global, count: usize) -> Result<List<bool>, Memory>
    ensures length { IfOk result (λ out. length out ≡ count) }
    ensures none { IfOk result (λ out. (k : ℕ) (b : Bool) → slice_get out k ≡ Some b → b ≡ false) }
{
    let mut out = List::new(alloc);
    for made in 0..count {
        out.push(false)?;
    }
    Ok(out)
}

// For each group whether some unit has it twice.
fn twice(alloc: Global, ranges: &[RangeOf], groups: &[u32]) -> Result<List<bool>, Memory>
    requires groups { AreGroups ranges.now groups.now }
    requires few { length ranges.now < 2 ^ 32 }
    ensures count { IfOk result (λ bad. length bad ≡ length ranges.now) }
    ensures tells { IfOk result (λ bad. (k : ℕ) (b : Bool) → slice_get bad k ≡ Some b → Tells b (Twice ranges.now groups.now (length ranges.now) k)) }
{
    let mut met: HashSet<(u32, u32)> = HashSet::new(alloc);
    let mut bad = no_flags(alloc, ranges.len())?;
    for i in 0..ranges.len() {
        let unit = ranges[i].unit;
        let group = groups[i];
        if met.contains(&(unit, group)) {
            let _old = bad.replace(group as usize, true);
            continue;
        }
        met.insert((unit, group))?;
    }
    Ok(bad)
}

// The flag of each range's group.
fn flags_of(alloc: Global, bad: &[bool], groups: &[u32]) -> Result<List<bool>, Memory>
    requires { (i : ℕ) → i < length groups.now → slice_index_or groups.now i 0 < length bad.now }
    ensures count { IfOk result (λ out. length out ≡ length groups.now) }
    ensures each { IfOk result (λ out. (i : ℕ) (b : Bool) → slice_get out i ≡ Some b → slice_get bad.now (slice_index_or groups.now i 0) ≡ Some b) }
{
    let mut out = List::new(alloc);
    for i in 0..groups.len() {
        out.push(bad[groups[i] as usize])?;
    }
    Ok(out)
}

/// For each range whether some unit has two ranges of its name and shape.
pub(crate) fn crowded(alloc: Global, ranges: &[RangeOf]) -> Result<List<bool>, Memory>
    requires { length ranges.now < 2 ^ 32 }
    ensures { IfOk result (λ out. AreCrowded ranges.now out) }
{
    let groups = groups_of(alloc, ranges)?;
    let bad = twice(alloc, ranges, groups.items())?;
    let out = flags_of(alloc, bad.items(), groups.items())?;
    Ok(out)
}
