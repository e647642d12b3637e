//! Instances: each kept range gets the first number from its sum on that no earlier kept range of its name has.

ghost use Rattle.std.specs.Prelude.{◌≡◌, ◌≢◌, ℕ, List, ◌+◌, ◌-◌, ◌<◌, ◌≤◌, ◌^◌, ◌%◌, length, false, unwrap_or, IfOk, slice_index, Some, slice_get};
ghost use Rattle.std.specs.HashSet.{hash_set_len};
ghost use Rattle.bincl_match.specs.declared.range.RangeOf.{RangeOf as SomeRange};
ghost use Rattle.bincl_match.specs.Instances.{AreLow, IsAlone, IsInstance};
ghost use Rattle.bincl_match.specs.Crowding.{AreTried, has_instance, look_sum};

use crate::range::{Grouping, RangeOf};
use st_base::{List, Memory};
use std::alloc::Global;
use std::collections::{HashMap, HashSet};

// From where on numbers above the sum are to be tried: all before are taken.
fn first_try<'a>(tried: &HashMap<(&'a [u8], u32), u32>, name: &'a [u8], sum: u32) -> u32
    ensures { result ≡ unwrap_or (look_sum tried.now name.now sum) 0 }
{
    match tried.get(&(name, sum)) {
        Some(tries) => *tries,
        None => 0,
    }
}

// How far above the sum the first number is that the name does not have. There is one, since fewer than 2^32 are taken.
fn free<'a>(taken: &HashSet<(&'a [u8], u32)>, name: &'a [u8], sum: u32, first: u32) -> u32
    requires room { hash_set_len taken.now < 2 ^ 32 }
    requires tried { AreTried (λ v. has_instance taken.now name.now v) sum first }
    ensures free { has_instance taken.now name.now ((sum + result) % 2 ^ 32) ≡ false }
    ensures tried { AreTried (λ v. has_instance taken.now name.now v) sum result }
{
    let mut tries = first;
    'tries: loop {
        let instance = sum.wrapping_add(tries);
        if !taken.contains(&(name, instance)) {
            return tries;
        }
        tries += 1;
    }
}

/// The instance of each range's kept range.
pub(crate) fn instances(
    alloc: Global,
    ranges: &[RangeOf],
    kept: &[u32],
) -> Result<List<u32>, Memory>
    requires same { length kept.now ≡ length ranges.now }
    requires low { AreLow kept.now }
    requires short { length ranges.now < 2 ^ 32 }
    ensures count { IfOk result (λ out. length out ≡ length ranges.now) }
    ensures own { IfOk result (λ out. (i : ℕ) → i < length ranges.now → slice_index kept.now i ≡ i → IsInstance ranges.now kept.now out i) }
    ensures shared { IfOk result (λ out. (i : ℕ) → i < length ranges.now → slice_index out i ≡ slice_index out (slice_index kept.now i)) }
    ensures apart { IfOk result (λ out. (i j : ℕ) (x y : SomeRange) → slice_get ranges.now i ≡ Some x → slice_get ranges.now j ≡ Some y → x.name ≡ y.name → slice_index kept.now i ≡ i → slice_index kept.now j ≡ j → i ≢ j → slice_index out i ≢ slice_index out j) }
{
    let mut taken: HashSet<(&[u8], u32)> = HashSet::new(alloc);
    // How many numbers above a sum a name was seen to have, so that equal sums are not tried again.
    let mut tried: HashMap<(&[u8], u32), u32> = HashMap::new(alloc);
    let mut out = List::new(alloc);
    for i in 0..ranges.len() {
        let first = kept[i] as usize;
        if first < i {
            let instance = out.items()[first];
            out.push(instance)?;
            continue;
        }
        let range = &ranges[i];
        let name = range.name.bytes();
        let first_try = first_try(&tried, name, range.sum);
        let tries = free(&taken, name, range.sum, first_try);
        let instance = range.sum.wrapping_add(tries);
        taken.insert((name, instance))?;
        tried.insert((name, range.sum), tries)?;
        out.push(instance)?;
    }
    Ok(out)
}

// The places 0, 1, 2 .. of so many ranges.
fn places(alloc: Global, count: usize) -> Result<List<u32>, Memory>
    requires { count < 2 ^ 32 }
    ensures count { IfOk result (λ kept. length kept ≡ count) }
    ensures own { IfOk result (λ kept. (i : ℕ) → i < count → slice_index kept i ≡ i) }
{
    let mut kept = List::new(alloc);
    for place in 0..count {
        kept.push(place as u32)?;
    }
    Ok(kept)
}

// The instances where every range is kept.
fn own_instances(alloc: Global, ranges: &[RangeOf], kept: List<u32>) -> Result<Grouping, Memory>
    requires count { length kept ≡ length ranges.now }
    requires own { (i : ℕ) → i < length ranges.now → slice_index kept i ≡ i }
    requires few { length ranges.now < 2 ^ 32 }
    ensures { IfOk result (λ c. IsAlone ranges.now c) }
{
    let instance = instances(alloc, ranges, kept.items())?;
    Ok(Grouping { kept, instance })
}

/// Every range kept: for each its own place, and the first number from its sum on, modulo 2^32, that no earlier range of its name has.
///
/// `ranges` is a list that `ranges` gave, so it has fewer than 2^32 items. Takes memory for the two lists and for a set of the names
/// with their instances; out of memory is the one refusal. This project's own.
pub fn alone(alloc: Global, ranges: &List<RangeOf>) -> Result<Grouping, Memory>
    requires few { length ranges.now < 2 ^ 32 }
    ensures { IfOk result (λ c. IsAlone ranges.now c) }
{
    let kept = places(alloc, ranges.len())?;
    own_instances(alloc, ranges.items(), kept)
}

/// The place of the range that is kept for the one at this place of the list. Takes no memory.
pub fn kept_of(classes: &Grouping, range: usize) -> u32
    requires { range < length classes.now.kept }
    ensures { result ≡ slice_index classes.now.kept range }
{
    classes.kept.items()[range]
}

/// The instance of the range that is kept for the one at this place of the list. Takes no memory.
pub fn instance_of(classes: &Grouping, range: usize) -> u32
    requires { range < length classes.now.instance }
    ensures { result ≡ slice_index classes.now.instance range }
{
    classes.instance.items()[range]
}
