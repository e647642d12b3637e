ghost use Rattle.std.specs.Prelude.{◌≡◌, IfOk, List, OnOk};
ghost use Rattle.std.specs.Option.{option_copied};
ghost use Rattle.stab_symbols.specs.declared.tree.Key.{Key};
ghost use Rattle.stab_units.specs.declared.unit.Unit.{Unit};
ghost use Rattle.type_graph.specs.KeyLists.{joined};
ghost use Rattle.type_graph.specs.Listings.{IsListing, surface_keys};

use crate::key_set::KeySet;
use crate::type_index::TypeIndex;
use st_base::{List, Memory};
use stab_grammar::{Key, TypeTree, visit_surface};
use stab_units::Unit;
use std::alloc::Global;

/// Distinct keys in order.
#[derive(Debug, Drop)]
pub struct KeyList {
    pub keys: List<Key>,
}

// The numbers on the surface of a definition, none where there is none.
fn add_body(found: &mut KeySet, body: Option<&TypeTree>) -> Result<(), Memory>
    ensures { OnOk result (found.new ≡ joined found.old (surface_keys (option_copied body.entry))) }
{
    match body {
        Some(body) => visit_surface(body, found),
        None => Ok(()),
    }
}

/// The listing of a key in a unit that is indexed, as a set that tells the place of each of its keys. Refused only when out of memory.
pub fn listed(alloc: Global, index: &TypeIndex<'_>, key: Key) -> Result<KeySet, Memory>
    ensures { IfOk result (IsListing index.now key) }
{
    let mut found = KeySet::new(alloc);
    found.add(key)?;
    let mut done = 0;
    while done < found.len() {
        let next = found.key(done);
        add_body(&mut found, index.definition(next))?;
        done += 1;
    }
    Ok(found)
}

/// The listing of a key: the key, and then every key on the surface of the definition of an earlier one, each once, in the
/// order in which they are met. A key without a definition is listed, and leads to none.
///
/// Refused only when out of memory. The listing is this project's own.
pub fn listing(alloc: Global, unit: &Unit, key: Key) -> Result<KeyList, Memory>
    ensures { IfOk result (λ l. IsListing unit.now key l.keys) }
{
    let index = TypeIndex::new(alloc, unit)?;
    let found = listed(alloc, &index, key)?;
    Ok(KeyList {
        keys: found.to_list(alloc)?,
    })
}

/// A key has one listing in a unit.
pub fn one_listing()
    ensures { (unit : Unit) (start : Key) (keys others : List Key) → IsListing unit start keys → IsListing unit start others → keys ≡ others }
{}

/// Every key has a listing in every unit.
pub fn a_listing()
    ensures { (unit : Unit) (start : Key) → (keys : List Key) × IsListing unit start keys }
{}
