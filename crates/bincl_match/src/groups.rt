//! A group for each name and shape of ranges. Each text is looked up once, in a map from texts to numbers; ranges are compared by the
//! numbers of their texts.

ghost use Rattle.std.specs.Prelude.{◌≡◌, ℕ, List, ◌+◌, ◌-◌, ◌<◌, ◌≤◌, ◌^◌, ◌∷◌, length, nat_eq, Some, IfOk, OnOk};
ghost use Rattle.std.specs.Cmp.Lexicographic.{pointwise};
ghost use Rattle.std.specs.HashMap.{hash_map_len};
ghost use Rattle.bincl_match.specs.Crowding.{AreFirsts, AreGroups, AreKeys, Grows, Numbered, Numbering, look, or_new};

use crate::range::RangeOf;
use st_base::{List, Memory};
use std::alloc::Global;
use std::collections::HashMap;

// ---- keys

// The number of a text: the one that it has in the map, or the next, which is noted.
fn number_of<'a>(seen: &mut HashMap<&'a [u8], usize>, text: &'a [u8]) -> Result<usize, Memory>
    requires { Numbering (λ t. look seen.old t) (hash_map_len seen.old) }
    ensures numbering { OnOk result (Numbering (λ t. look seen.new t) (hash_map_len seen.new)) }
    ensures grows { OnOk result (Grows (λ t. look seen.old t) (λ t. look seen.new t)) }
    ensures found { IfOk result (λ k. look seen.new text.now ≡ Some k) }
{
    if let Some(number) = seen.get(text) {
        return Ok(*number);
    }
    let next = seen.len();
    seen.insert(text, next)?;
    Ok(next)
}

// The numbers of a range's name and of the texts of its shape.
fn key_of<'a>(
    alloc: Global,
    seen: &mut HashMap<&'a [u8], usize>,
    range: &'a RangeOf,
) -> Result<List<usize>, Memory>
    requires { Numbering (λ t. look seen.old t) (hash_map_len seen.old) }
    ensures numbering { OnOk result (Numbering (λ t. look seen.new t) (hash_map_len seen.new)) }
    ensures grows { OnOk result (Grows (λ t. look seen.old t) (λ t. look seen.new t)) }
    ensures key { IfOk result (λ key. Numbered (λ t. look seen.new t) (range.now.name ∷ range.now.shape) key) }
{
    let mut key = List::new(alloc);
    let name = number_of(seen, range.name.bytes())?;
    key.push(name)?;
    for text in range.shape.items() {
        let number = number_of(seen, text.bytes())?;
        key.push(number)?;
    }
    Ok(key)
}

// A key for each range.
fn keys_of(alloc: Global, ranges: &[RangeOf]) -> Result<List<List<usize>>, Memory>
    ensures { IfOk result (λ keys. AreKeys ranges.now keys) }
{
    let mut seen: HashMap<&[u8], usize> = HashMap::new(alloc);
    let mut keys = List::new(alloc);
    for i in 0..ranges.len() {
        let key = key_of(alloc, &mut seen, &ranges[i])?;
        keys.push(key)?;
    }
    Ok(keys)
}

// ---- groups

// The place that the key has in the map, or this one, which is noted.
fn first_seen<'a>(
    seen: &mut HashMap<&'a [usize], u32>,
    key: &'a [usize],
    at: u32,
) -> Result<u32, Memory>
    ensures found { IfOk result (λ r. or_new (look seen.old key.now) (pointwise nat_eq key.now key.now) at ≡ Some r) }
    ensures noted { OnOk result ((q : List ℕ) → look seen.new q ≡ or_new (look seen.old q) (pointwise nat_eq q key.now) at) }
{
    if let Some(first) = seen.get(key) {
        return Ok(*first);
    }
    seen.insert(key, at)?;
    Ok(at)
}

/// For each key the place of the first key that equals it.
pub(crate) fn firsts(alloc: Global, keys: &[List<usize>]) -> Result<List<u32>, Memory>
    requires { length keys.now < 2 ^ 32 }
    ensures { IfOk result (λ out. AreFirsts keys.now out) }
{
    let mut seen: HashMap<&[usize], u32> = HashMap::new(alloc);
    let mut out = List::new(alloc);
    for i in 0..keys.len() {
        let first = first_seen(&mut seen, keys[i].items(), i as u32)?;
        out.push(first)?;
    }
    Ok(out)
}

/// For each range the place of the first range that has its name and shape.
pub(crate) fn groups_of(alloc: Global, ranges: &[RangeOf]) -> Result<List<u32>, Memory>
    requires { length ranges.now < 2 ^ 32 }
    ensures { IfOk result (λ groups. AreGroups ranges.now groups) }
{
    let keys = keys_of(alloc, ranges)?;
    let groups = firsts(alloc, keys.items())?;
    Ok(groups)
}
