ghost use Rattle.std.specs.Prelude.{◌≡◌, length, IfOk, Some, None, if◌then◌else◌};
ghost use Rattle.aout_link.specs.Placing as spec;
ghost use Rattle.aout_link.specs.Refusals.{is_lacking};
ghost use Rattle.aout_link.specs.Answering.{listed, Places, PlacesAll};

use crate::checked::Checked;
use crate::definitions::{Known, find, moved_value};
use crate::moves::Moves;
use crate::refusals::fault_in;
use indexmap::IndexMap;
use nlist_codec::{Named, UNDEFINED_EXTERNAL};
use st_base::{List, Memory, Refused, UNDEFINED};
use std::alloc::Global;

// The kind and value of an entry in the image; none for an undefined one whose name stands for nothing.
fn resolve(table: &IndexMap<&[u8], Known>, moves: &Moves, entry: &Named) -> Option<Known>
    ensures { result ≡ (if is_lacking (listed table.now.entries) entry.now then None
        else Some (spec.stands_for (listed table.now.entries) moves.now entry.now)) }
{
    if entry.kind != UNDEFINED_EXTERNAL {
        return Some(Known {
            kind: entry.kind,
            value: moved_value(moves, entry),
        });
    }
    match find(table, entry.name.bytes()) {
        Some(known) => Some(known),
        None => if entry.value == 0 {
            None
        } else {
            Some(Known {
                kind: entry.kind,
                value: entry.value,
            })
        },
    }
}

// A copy of an entry with another kind and value.
fn with_known(alloc: Global, entry: &Named, known: &Known) -> Result<Named, Memory>
    ensures { IfOk result (λ n. n ≡ spec.with_known known.now entry.now) }
{
    Ok(Named {
        kind: known.kind,
        other: entry.other,
        desc: entry.desc,
        value: known.value,
        name: entry.name.copy(alloc)?,
    })
}

// Places the entries of one object behind those that are placed.
fn place_entries(
    alloc: Global,
    out: &mut List<Named>,
    table: &IndexMap<&[u8], Known>,
    moves: &Moves,
    named: &[Named],
    object: usize,
) -> Result<(), Refused>
    ensures { Places (listed table.now.entries) object moves.now named.now result out.old out.new }
{
    for (at, entry) in named.iter().enumerate() {
        match resolve(table, moves, entry) {
            Some(known) => {
                let placed = with_known(alloc, entry, &known)?;
                out.push(placed)?;
            }
            None => return Err(Refused::At(fault_in(UNDEFINED, object, at))),
        }
    }
    Ok(())
}

/// The entries of all objects in order, as they stand in the image. Refused with `UNDEFINED` at the first entry of kind 1 and value 0
/// whose name stands for nothing: the place is the object's number, within the entry's. Out of memory is an answer of its own.
pub fn place_all(
    alloc: Global,
    table: &IndexMap<&[u8], Known>,
    objects: &[Checked],
    moves: &[Moves],
) -> Result<List<Named>, Refused>
    requires { length moves.now ≡ length objects.now }
    ensures { PlacesAll (listed table.now.entries) moves.now objects.now result }
{
    let mut out = List::new(alloc);
    for (at, object) in objects.iter().enumerate() {
        if let Err(why) = place_entries(
            alloc,
            &mut out,
            table,
            &moves[at],
            object.named().items(),
            at,
        ) {
            return Err(why);
        }
    }
    Ok(out)
}
