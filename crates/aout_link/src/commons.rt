ghost use Rattle.std.specs.Prelude.{◌≡◌, ◌<◌, ◌^◌, ◌++◌, max, unwrap_or, List, IfOk, OnOk, bytes_eq};
ghost use Rattle.indexmap.specs.IndexMap.{insert_entry};
ghost use Rattle.nlist_codec.specs.declared.named.Named.{Named as NamedEntry};
ghost use Rattle.aout_link.specs.NameTables as spec;
ghost use Rattle.aout_link.specs.NameTables.{known_by, entries_of};
ghost use Rattle.aout_link.specs.Answering.{listed, Tells, AreNew};

use crate::checked::Checked;
use crate::definitions::{Known, define, find};
use crate::moves::{low, padded};
use indexmap::IndexMap;
use nlist_codec::{BSS_EXTERNAL, Named, UNDEFINED_EXTERNAL};
use st_base::Memory;
use std::alloc::Global;

// Whether an entry asks for a common.
fn is_common(entry: &Named) -> bool
    ensures { result ≡ spec.is_common entry.now }
{
    entry.kind == UNDEFINED_EXTERNAL && entry.value != 0
}

// The size noted for a common, else 0.
fn find_size(sizes: &IndexMap<&[u8], u32>, name: &[u8]) -> u32
    ensures { result ≡ unwrap_or (known_by name.now (listed sizes.now.entries)) 0 }
{
    sizes.get(name).copied().unwrap_or(0)
}

// Notes a size for a common: the greater one counts.
fn note_common<'a>(
    sizes: &mut IndexMap<&'a [u8], u32>,
    name: &'a [u8],
    size: u32,
) -> Result<(), Memory>
    ensures { OnOk result (listed sizes.new.entries ≡ insert_entry bytes_eq (listed sizes.old.entries) name.now
        (max (unwrap_or (known_by name.now (listed sizes.old.entries)) 0) size)) }
{
    let old = find_size(sizes, name);
    sizes.insert(name, old.max(size))?;
    Ok(())
}

// Notes the commons among the entries of one object whose names have no definition.
fn note_commons<'a>(
    sizes: &mut IndexMap<&'a [u8], u32>,
    named: &'a [Named],
    definitions: &IndexMap<&[u8], Known>,
) -> Result<(), Memory>
    ensures { (all before : List NamedEntry) → Tells all (listed definitions.now.entries) → listed sizes.old.entries ≡ spec.sizes_of before
        → OnOk result (listed sizes.new.entries ≡ spec.sizes_of (before ++ spec.commons_among all named.now)) }
{
    for entry in named {
        if !is_common(entry) {
            continue;
        }
        if find(definitions, entry.name.bytes()).is_some() {
            continue;
        }
        note_common(sizes, entry.name.bytes(), entry.value)?;
    }
    Ok(())
}

/// The commons of all objects whose names have no definition, in order of first appearance, each with the greatest size given for it in
/// bytes. Out of memory is the only refusal.
pub fn find_commons<'a>(
    alloc: Global,
    objects: &'a [Checked],
    definitions: &IndexMap<&[u8], Known>,
) -> Result<IndexMap<&'a [u8], u32>, Memory>
    ensures { Tells (entries_of objects.now) (listed definitions.now.entries)
        → IfOk result (λ sizes. listed sizes.entries ≡ spec.common_sizes objects.now) }
{
    let mut sizes = IndexMap::new(alloc);
    for object in objects {
        note_commons(&mut sizes, object.named().items(), definitions)?;
    }
    Ok(sizes)
}

/// Places the commons one behind the other from an address on, notes in the table what their names stand for, and gives the bytes that
/// they take together. Out of memory is the only refusal.
pub fn place_commons<'a>(
    table: &mut IndexMap<&'a [u8], Known>,
    sizes: &IndexMap<&'a [u8], u32>,
    start: u128,
) -> Result<u128, Memory>
    requires new { AreNew (listed table.old.entries) (listed sizes.now.entries) }
    requires start { start < 2 ^ 120 }
    ensures table { OnOk result (listed table.new.entries ≡ listed table.old.entries ++ spec.placed_commons start (listed sizes.now.entries)) }
    ensures total { IfOk result (λ total. total ≡ spec.commons_total (listed sizes.now.entries)) }
    ensures small { IfOk result (λ total. total < 2 ^ 120) }
{
    let mut total = 0u128;
    for at in 0..sizes.len() {
        let (name, size) = sizes.get_index(at).unwrap();
        let known = Known {
            kind: BSS_EXTERNAL,
            value: low(start + total),
        };
        define(table, name, known)?;
        total += padded(*size as u64) as u128;
    }
    Ok(total)
}
