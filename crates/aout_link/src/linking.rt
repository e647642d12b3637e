//! Linking, pass by pass: objects are placed; the header ranges of the placed entries are made of those that the objects keep, so that no
//! string is parsed, and grouped as the mode says; the entries of the image are made of the placed ones, a range staying where it is kept,
//! and leaving an N_EXCL for the range that is kept for it where it is not; and the object is made.
//!
//! ```text
//! a.c        N_SO                 a.c        N_SO
//!  x.h       N_BINCL               x.h       N_BINCL, the instance of range 0
//!   t1       N_LSYM                 t1       N_LSYM
//!            N_EINCL                         N_EINCL
//! b.c        N_SO                 b.c        N_SO
//!  x.h       N_BINCL               x.h       N_EXCL, the instance of range 0
//!   t1       N_LSYM
//!            N_EINCL
//! ```

ghost use Rattle.std.specs.Prelude.{◌≡◌, ◌<◌, ◌^◌, length, Err, IfOk, Some};
ghost use Rattle.st_base.specs.declared.fault.Fault.{Fault};
ghost use Rattle.st_base.specs.declared.fault.Refused.{Refused};
ghost use Rattle.bincl_match.specs.Lawful.{IsLawful};
ghost use Rattle.bincl_match.specs.Ranges.{AreFoundButUnits};
ghost use Rattle.aout_link.specs.Placing.{IsPlaced};
ghost use Rattle.aout_link.specs.Refusals.{list_fault};
ghost use Rattle.aout_link.specs.ImageMaking.{CanBeMade};
ghost use Rattle.header_merge.specs.Merged.{merged};
ghost use Rattle.aout_link.specs.Linking.{KeepsWorld, IsGroupingOf, IsPlanned, Links, image_end, image_placed, kept_from};
ghost use Rattle.aout_link.specs.Planning.{IsGrouped, Makes};

use crate::checked::Checked;
use crate::gathering::gather;
use crate::image::{Merged, make_image};
use crate::placed::{Placed, place_objects};
use aout_object::Object;
use bincl_match::{
    Found, Grouping, Mode, RangeOf, alone, classes, found_laws, join_ranges, merging_laws,
    one_ranges,
};
use header_merge::{merge_headers, merged_world};
use nlist_codec::Named;
use st_base::{List, Memory, Refused, Steps};
use std::alloc::Global;
use std::sync::ledger::Ledger;

/// An image, and how many header ranges it has.
#[derive(Debug, Drop)]
pub struct Image {
    /// The image as an object: no relocations are left in it.
    pub object: Object,
    /// The header ranges of the placed entries.
    pub ranges: u32,
    /// Those of them that are kept.
    pub kept: u32,
}

// What is placed of objects, and which of its header ranges are kept.
#[derive(Debug, Drop)]
struct Plan {
    placed: Placed,
    grouping: Grouping,
}

// ---- what is placed, and its ranges

// The grouping of ranges that the mode makes.
fn group_ranges(alloc: Global, found: &List<RangeOf>, mode: Mode) -> Result<Grouping, Memory>
    requires lawful { IsLawful found.now }
    requires few { length found.now < 2 ^ 32 }
    ensures grouped { IfOk result (IsGroupingOf mode found.now) }
    ensures count { IfOk result (λ grouping. length grouping.kept ≡ length found.now) }
{
    match mode {
        Mode::Keep => match alone(alloc, found) {
            Ok(grouping) => Ok(grouping),
            Err(why) => Err(why),
        },
        Mode::Merge => match classes(alloc, found) {
            Ok(grouping) => Ok(grouping),
            Err(why) => Err(why),
        },
    }
}

// The grouping of the ranges of entries, of which they are known but for the numbers of their units.
fn group(
    alloc: Global,
    entries: &List<Named>,
    end: u32,
    found: Found,
    mode: Mode,
) -> Result<Grouping, Memory>
    requires few { length entries.now < 2 ^ 32 }
    requires found { AreFoundButUnits end entries.now found }
    ensures grouped { IfOk result (IsGrouped mode end entries.now) }
    ensures few { IfOk result (λ grouping. length grouping.kept < 2 ^ 32) }
    ensures world { IfOk result (λ grouping. KeepsWorld end entries.now (merged grouping entries.now)) }
{
    one_ranges();
    merging_laws();
    merged_world();
    let ranges = join_ranges(alloc, entries, end, found)?;
    match group_ranges(alloc, &ranges, mode) {
        Ok(grouping) => Ok(grouping),
        Err(why) => Err(why),
    }
}

// The grouping of the ranges of what is placed of objects.
fn group_placed(
    alloc: Global,
    objects: &[Checked],
    placed: &Placed,
    base: u32,
    mode: Mode,
) -> Result<Grouping, Memory>
    requires placed { IsPlaced base objects.now placed.now }
    requires can { CanBeMade placed.now }
    ensures grouped { IfOk result (IsGrouped mode (image_end placed.now) placed.now.named) }
    ensures few { IfOk result (λ grouping. length grouping.kept < 2 ^ 32) }
    ensures world { IfOk result (λ grouping. KeepsWorld (image_end placed.now) placed.now.named (merged grouping placed.now.named)) }
{
    found_laws();
    // ranges are numbered by words
    if placed.named.len() > u32::MAX as usize {
        return Err(Memory);
    }
    let found = gather(alloc, objects)?;
    let end = placed.entry + placed.text.bytes().len() as u32;
    match group(alloc, &placed.named, end, found, mode) {
        Ok(grouping) => Ok(grouping),
        Err(why) => Err(why),
    }
}

// What is placed of objects, and the grouping of its ranges.
fn make_plan(alloc: Global, objects: &[Checked], base: u32, mode: Mode) -> Result<Plan, Refused>
    ensures planned { IfOk result (λ plan. IsPlanned mode base objects.now plan.placed plan.grouping) }
    ensures can { IfOk result (λ plan. CanBeMade plan.placed) }
    ensures few { IfOk result (λ plan. length plan.grouping.kept < 2 ^ 32) }
    ensures world { IfOk result (λ plan. KeepsWorld (image_end plan.placed) plan.placed.named (merged plan.grouping plan.placed.named)) }
    ensures refused { (f : Fault) → result ≡ Err (Refused.At f) → list_fault base objects.now ≡ Some f }
{
    let placed = match place_objects(alloc, objects, base) {
        Ok(placed) => placed,
        Err(why) => return Err(why),
    };
    match group_placed(alloc, objects, &placed, base, mode) {
        Ok(grouping) => Ok(Plan { placed, grouping }),
        Err(_) => Err(Refused::Memory),
    }
}

// ---- the image

// How many ranges are kept for themselves.
fn count_kept(kept: &[u32]) -> u32
    requires { length kept.now < 2 ^ 32 }
    ensures { result ≡ kept_from 0 kept.now }
{
    let mut count = 0u32;
    for (place, first) in kept.iter().enumerate() {
        if *first as usize == place {
            count += 1;
        }
    }
    count
}

// What is placed, with the entries of the image in place of the placed ones.
fn merge(alloc: Global, placed: Placed, grouping: &Grouping) -> Result<Merged, Memory>
    ensures { IfOk result (λ merged. merged.image ≡ image_placed grouping.now placed) }
{
    let mut image = placed;
    image.named = merge_headers(alloc, image.named, grouping)?;
    Ok(Merged { image })
}

// The image of what is placed, whose ranges are grouped so.
fn make_merged(alloc: Global, placed: Placed, grouping: &Grouping) -> Result<Image, Refused>
    requires can { CanBeMade placed }
    requires few { length grouping.now.kept < 2 ^ 32 }
    ensures { Makes placed grouping.now result }
{
    let Ok(merged) = merge(alloc, placed, grouping) else {
        return Err(Refused::Memory);
    };
    match make_image(alloc, merged) {
        Ok(object) => Ok(Image {
            object,
            ranges: grouping.kept.len() as u32,
            kept: count_kept(grouping.kept.items()),
        }),
        Err(why) => Err(why),
    }
}

/// The image of objects: their text from the address `base` on, then data, bss and commons, as `place_objects` places them, without
/// relocations; and the entries that `merge_headers` makes of the placed ones.
///
/// The ranges are those of the placed entries, counted from 0 in their order, and `mode` says which of them are kept: `alone` or
/// `classes` groups them. The instance of a kept range is the first number from its sum on, modulo 2^32, that no earlier kept range
/// of its name has.
///
/// Refused with the first fault of the list, as by `place_objects`: `EMPTY`, `ORDER_MIX`, `MACHINE_MIX`, `TWICE`, `UNDEFINED`,
/// `TOO_LARGE` with place 4,294,967,295, and relocation by relocation `OUTSIDE`, `SYMBOL` and `OVERFLOW`. An accepted list is refused with
/// `TOO_LARGE` and place 134,217,728 where the image's file would have more bytes. Stabs give no refusal, since the objects have units.
///
/// No string is parsed, and no step is taken, whatever is answered: `Checked::of` has read each string and kept the ranges of its
/// object. Copies of these, one behind the other, are the ranges of the placed entries. Takes memory for the placed segments and
/// entries, for the copies and the ranges, and for the entries of the image and the image; out of memory is an answer of its own, and
/// that of 2^32 placed entries or more. After a.out(5) and "The stabs debug format".
pub fn link<L: Ledger>(
    alloc: Global,
    objects: &List<Checked>,
    base: u32,
    mode: Mode,
    steps: &mut Steps<L>,
) -> Result<Image, Refused>
    ensures links { Links mode base objects.now steps.old steps.new result }
    ensures still { steps.new ≡ steps.old }
{
    let Plan { placed, grouping } = match make_plan(alloc, objects.items(), base, mode) {
        Ok(plan) => plan,
        Err(why) => return Err(why),
    };
    match make_merged(alloc, placed, &grouping) {
        Ok(image) => Ok(image),
        Err(why) => Err(why),
    }
}
