//! The values of externals by their names in the source, in a map that is made once for a reply.

ghost use Rattle.std.specs.Prelude.{◌≡◌, ℕ, List, IfOk, OnOk};
ghost use Rattle.std.specs.Option.{option_or};
ghost use Rattle.std.specs.Str.{bytes_eq};
ghost use Rattle.query_text.specs.Externals as spec;

use st_base::Memory;
use std::alloc::Global;
use std::collections::BTreeMap;
use type_graph::External;

// A name counts where it was not noted before.
fn note_new<'a>(
    values: &mut BTreeMap<&'a [u8], u32>,
    name: &'a [u8],
    value: u32,
) -> Result<(), Memory>
    ensures { OnOk result ((other : List ℕ) → spec.look values.new other ≡ option_or (spec.look values.old other) (spec.value_if (bytes_eq name.now other) value)) }
{
    if !values.contains_key(name) {
        values.insert(name, value)?;
    }
    Ok(())
}

// An external counts where its name begins with `_`.
fn note<'a>(values: &mut BTreeMap<&'a [u8], u32>, full: &'a [u8], value: u32) -> Result<(), Memory>
    ensures { OnOk result ((name : List ℕ) → spec.look values.new name ≡ spec.noted full.now value name (spec.look values.old name)) }
{
    match full {
        [b'_', name @ ..] => note_new(values, name, value),
        _ => Ok(()),
    }
}

/// The values of externals by their names without the `_`; of several of one name that of the first.
pub fn by_name<'a>(
    alloc: Global,
    externals: &'a [External],
) -> Result<BTreeMap<&'a [u8], u32>, Memory>
    ensures { IfOk result (λ values. (name : List ℕ) → spec.look values name ≡ spec.external_value externals.now name) }
{
    let mut values = BTreeMap::new(alloc);
    for external in externals {
        note(&mut values, external.name.bytes(), external.value)?;
    }
    Ok(values)
}
