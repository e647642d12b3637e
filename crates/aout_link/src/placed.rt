ghost use Rattle.std.specs.Prelude.{◌≡◌, ◌<◌, ◌^◌, slice_get, All, IfOk, Some};
ghost use Rattle.aout_link.specs.Sources.{IsLawful};
ghost use Rattle.aout_link.specs.ImageMaking.{CanBeMade};
ghost use Rattle.aout_link.specs.Moves.{totals_of, all_moves};
ghost use Rattle.aout_link.specs.Refusals.{place_fault, list_fault, PlacesTo};
ghost use Rattle.aout_link.specs.Answering.{AreSmall, NamesFound};

use crate::checked::Checked;
use crate::commons::{find_commons, place_commons};
use crate::definitions::{Known, find_definitions};
use crate::moves::{Moves, Totals, find_moves, sum_sizes};
use crate::placing::place_all;
use crate::refusals::{check_alike, check_end};
use crate::relocating::place_segments;
use indexmap::IndexMap;
use nlist_codec::Named;
use st_base::{EMPTY, Fault, List, Order, Refused, Text};
use std::alloc::Global;

/// What is placed of a list of objects.
#[derive(Debug, Drop)]
pub struct Placed {
    /// The byte order of all objects.
    pub order: Order,
    /// Their machine word.
    pub machine: u16,
    /// The address of text.
    pub entry: u32,
    /// The texts of the objects, each padded to a multiple of 4, with the relocations applied.
    pub text: Text,
    /// Their data in the same way.
    pub data_part: Text,
    /// The size of bss in bytes, commons included.
    pub bss: u32,
    /// The entries of the objects in order, as they stand in the image.
    pub named: List<Named>,
}

// What names stand for, and the bytes that the commons take together.
fn find_names<'a>(
    alloc: Global,
    objects: &'a [Checked],
    base: u32,
    moves: &[Moves],
    totals: &Totals,
) -> Result<(IndexMap<&'a [u8], Known>, u128), Refused>
    requires moves { moves.now ≡ all_moves base objects.now }
    requires totals { totals.now ≡ totals_of objects.now }
    requires small { AreSmall totals.now }
    ensures found { NamesFound base objects.now result }
    ensures small { IfOk result (λ found. found.1 < 2 ^ 120) }
{
    let mut table = match find_definitions(alloc, objects, moves) {
        Ok(table) => table,
        Err(why) => return Err(why),
    };
    let sizes = find_commons(alloc, objects, &table)?;
    let start = base as u128 + totals.text + totals.datum + totals.bss;
    let commons = place_commons(&mut table, &sizes, start)?;
    Ok((table, commons))
}

// Places objects that are alike.
fn place_alike(
    alloc: Global,
    objects: &[Checked],
    first: &Checked,
    base: u32,
) -> Result<Placed, Refused>
    requires first { slice_get objects.now 0 ≡ Some first.now }
    ensures { PlacesTo (place_fault base objects.now) base objects.now result }
{
    let totals = sum_sizes(objects);
    let moves = find_moves(alloc, objects, base, &totals)?;
    let (table, commons) = match find_names(alloc, objects, base, moves.items(), &totals) {
        Ok(found) => found,
        Err(why) => return Err(why),
    };
    let named = match place_all(alloc, &table, objects, moves.items()) {
        Ok(named) => named,
        Err(why) => return Err(why),
    };
    let bss = match check_end(base, &totals, commons) {
        Ok(bss) => bss,
        Err(fault) => return Err(Refused::At(fault)),
    };
    let segments = match place_segments(alloc, objects, moves.items(), named.items()) {
        Ok(segments) => segments,
        Err(why) => return Err(why),
    };
    let parts = first.parts();
    Ok(Placed {
        order: parts.order,
        machine: parts.machine,
        entry: base,
        text: segments.text,
        data_part: segments.data_part,
        bss,
        named,
    })
}

// Checks that objects are alike, and places them.
fn place_checked(alloc: Global, objects: &[Checked], base: u32) -> Result<Placed, Refused>
    ensures { PlacesTo (list_fault base objects.now) base objects.now result }
{
    if let Err(fault) = check_alike(objects) {
        return Err(Refused::At(fault));
    }
    match objects {
        [] => Err(Refused::At(Fault::at(EMPTY, 0))),
        [first, ..] => place_alike(alloc, objects, first, base),
    }
}

// What holds of each object, which a proof sees at a call.
fn are_lawful(objects: &[Checked])
    ensures { All IsLawful objects.now }
{
    for object in objects {
        let _parts = object.parts();
    }
}

/// Places objects one behind the other: text from the base address on, then data, then bss, then the commons that no object defines.
///
/// Refused at the first of these: `EMPTY` for no objects; `ORDER_MIX` and then `MACHINE_MIX` at the first object that is not as the
/// first; `TWICE` at the first entry that defines a name again; `UNDEFINED` at the first entry of kind 1 and value 0 whose name has
/// neither a definition nor a common; `TOO_LARGE` with place 4,294,967,295 where the end of bss passes that address; then
/// relocation by relocation `OUTSIDE`, `SYMBOL` and `OVERFLOW`. But for the limit of addresses the place is the object's number, counted
/// from 0, and within it that of its entry or relocation, text first. Out of memory is an answer of its own.
pub fn place_objects(alloc: Global, sources: &[Checked], base: u32) -> Result<Placed, Refused>
    ensures placed { PlacesTo (list_fault base sources.now) base sources.now result }
    ensures lawful { IfOk result CanBeMade }
{
    are_lawful(sources);
    match place_checked(alloc, sources, base) {
        Ok(placed) => Ok(placed),
        Err(why) => Err(why),
    }
}
