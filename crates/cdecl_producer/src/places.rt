ghost use Rattle.std.specs.Prelude.{◌≡◌, ℕ, List, IfOk, OnOk};
ghost use Rattle.std.specs.Map.{lookup};
ghost use Rattle.std.specs.Str.{bytes_eq};
ghost use Rattle.indexmap.specs.IndexMap.{insert_entry};
ghost use Rattle.cdecl_producer.specs.Files.{listed, place_of};

use crate::source::Source;
use indexmap::IndexMap;
use st_base::Memory;
use std::alloc::Global;

/// The place of a name, if it has one. Takes no memory.
pub fn find_place(places: &IndexMap<&[u8], usize>, name: &[u8]) -> Option<usize>
    ensures { result ≡ lookup (bytes_eq name.now) (listed places.now.entries) }
{
    places.get(name).copied()
}

// Gives a name this place, also where it has one.
fn put_place<'a>(
    places: &mut IndexMap<&'a [u8], usize>,
    name: &'a [u8],
    place: usize,
) -> Result<(), Memory>
    ensures { OnOk result (listed places.new.entries ≡ insert_entry bytes_eq (listed places.old.entries) name.now place) }
{
    places.insert(name, place)?;
    Ok(())
}

/// The places of files by their names: that of the first of a name. Out of memory is the only refusal.
pub fn find_places<'a>(
    alloc: Global,
    files: &'a [Source],
) -> Result<IndexMap<&'a [u8], usize>, Memory>
    ensures { IfOk result (λ p. (name : List ℕ) → lookup (bytes_eq name) (listed p.entries) ≡ place_of name files.now) }
{
    let mut places = IndexMap::new(alloc);
    for at in (0..files.len()).rev() {
        put_place(&mut places, files[at].name.bytes(), at)?;
    }
    Ok(places)
}
