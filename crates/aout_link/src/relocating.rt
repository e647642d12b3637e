ghost use Rattle.std.specs.Prelude.{◌≡◌, ◌≤◌, ◌<◌, ◌^◌, ◌-◌, ◌++◌, length, replicate, OnOk, MatchResult, All};
ghost use Rattle.st_base.specs.ByteOrder.{is_big};
ghost use Rattle.st_base.specs.Faults.{checked, unless};
ghost use Rattle.st_base.specs.declared.fault.Refused.TheVariants as refused;
ghost use Rattle.reloc.specs.Sums.{applied, bytes_in};
ghost use Rattle.stab_codes.specs.Segments.{segment_of_bits};
ghost use Rattle.st_base.specs.Multiples.{aligned};
ghost use Rattle.aout_link.specs.NameTables as tables;
ghost use Rattle.aout_link.specs.Placing as spec;
ghost use Rattle.aout_link.specs.Refusals as refusals;
ghost use Rattle.aout_link.specs.Answering.{Appends, AppendsObject, PlacesSegments};

use crate::checked::Checked;
use crate::moves::{Moves, padded};
use crate::refusals::fault_in;
use nlist_codec::Named;
use reloc::{Reloc, apply};
use st_base::{Fault, LEAST_STAB, OUTSIDE, OVERFLOW, Order, Refused, SYMBOL, Text};
use std::alloc::Global;
use std::marker::Model;

// The value of an entry of the image; 0 where there is none.
fn value_at(placed: &[Named], symbol: u32) -> u32
    ensures { result ≡ spec.value_at placed.now symbol }
{
    match placed.get(symbol as usize) {
        Some(entry) => entry.value,
        None => 0,
    }
}

// How far the segment moves that a relocation names which is not external.
fn move_of_segment(moves: &Moves, symbol: u32) -> u32
    ensures { result ≡ tables.move_with moves.now (segment_of_bits symbol) }
{
    match symbol {
        4 => moves.text,
        6 => moves.datum,
        8 => moves.bss,
        _ => 0,
    }
}

/// What the relocations of one segment of an object depend on.
#[derive(Drop)]
struct Frame<'a> {
    /// How far the segments of the object move.
    moves: Moves,
    /// How far this one does.
    own: u32,
    /// The entries of the object.
    named: &'a [Named],
    /// The same as they stand in the image.
    placed: &'a [Named],
}

impl<'a> Model for Frame<'a> {
    ghost use Rattle.aout_link.specs.Placing.{Frame as FrameValue};

    ghost Value = { FrameValue };

    ghost view = { λ f. record { moves = f.moves; own = f.own; named = f.named.now; placed = f.placed.now } };
}

// What a relocation adds to its field.
fn amount(frame: &Frame, reloc: &Reloc) -> u32
    ensures { result ≡ spec.amount frame.now reloc.now }
{
    let target = if reloc.external {
        value_at(frame.placed, reloc.symbol)
    } else {
        move_of_segment(&frame.moves, reloc.symbol)
    };
    let away = if reloc.pcrel { frame.own } else { 0 };
    target.wrapping_sub(away)
}

// Whether a relocation may name an entry of this kind.
fn is_target(kind: u8) -> bool
    ensures { result ≡ refusals.is_target kind }
{
    kind < LEAST_STAB && kind != 0
}

// Whether a relocation names what it may.
fn is_lawful(named: &[Named], reloc: &Reloc) -> bool
    ensures { result ≡ refusals.is_lawful named.now reloc.now }
{
    if !reloc.external {
        return true;
    }
    match named.get(reloc.symbol as usize) {
        Some(entry) => is_target(entry.kind),
        None => false,
    }
}

// The bytes of a field.
fn size_of(length: u8) -> usize
    requires { length ≤ 2 }
    ensures { result ≡ bytes_in length }
{
    1 << length
}

// Adds what relocation `at` of object `object` says to its field.
fn relocate_one<const BIG: bool>(
    segment: &mut [u8],
    reloc: &Reloc,
    frame: &Frame,
    object: usize,
    at: usize,
) -> Result<(), Fault>
    requires { reloc.now.length ≤ 2 }
    ensures first_fault { result ≡ checked (refusals.reloc_checks BIG object at frame.now segment.old reloc.now) tt }
    ensures field { OnOk result (segment.new ≡ applied BIG segment.old reloc.now (spec.amount frame.now reloc.now)) }
{
    if segment.len() < reloc.address as usize + size_of(reloc.length) {
        return Err(fault_in(OUTSIDE, object, at));
    }
    if !is_lawful(frame.named, reloc) {
        return Err(fault_in(SYMBOL, object, at));
    }
    let add = amount(frame, reloc);
    // the field lies in the segment, so that only a sum is refused here
    match apply::<BIG>(segment, reloc, add) {
        Ok(()) => Ok(()),
        Err(_) => Err(fault_in(OVERFLOW, object, at)),
    }
}

// Applies relocations in order, the first of which has the number `first` in object `object`.
fn relocate<const BIG: bool>(
    segment: &mut [u8],
    relocs: &[Reloc],
    frame: &Frame,
    object: usize,
    first: usize,
) -> Result<(), Fault>
    requires short { All (λ r. r.length ≤ 2) relocs.now }
    requires few { first < 2 ^ 63 }
    requires more { length relocs.now < 2 ^ 63 }
    ensures first_fault { result ≡ unless (refusals.relocs_fault BIG object first frame.now segment.old relocs.now) tt }
    ensures fields { OnOk result (segment.new ≡ spec.relocated BIG frame.now segment.old relocs.now) }
{
    for (at, reloc) in relocs.iter().enumerate() {
        if let Err(fault) = relocate_one::<BIG>(segment, reloc, frame, object, first + at) {
            return Err(fault);
        }
    }
    Ok(())
}

// Applies relocations in order, in either byte order.
fn relocate_in(
    order: Order,
    segment: &mut [u8],
    relocs: &[Reloc],
    frame: &Frame,
    object: usize,
    first: usize,
) -> Result<(), Fault>
    requires short { All (λ r. r.length ≤ 2) relocs.now }
    requires few { first < 2 ^ 63 }
    requires more { length relocs.now < 2 ^ 63 }
    ensures first_fault { result ≡ unless (refusals.relocs_fault (is_big order) object first frame.now segment.old relocs.now) tt }
    ensures fields { OnOk result (segment.new ≡ spec.relocated (is_big order) frame.now segment.old relocs.now) }
{
    match order {
        Order::Little => relocate::<false>(segment, relocs, frame, object, first),
        Order::Big => relocate::<true>(segment, relocs, frame, object, first),
    }
}

const ZEROS: [u8; 3] = [0; 3];

// Appends zero bytes behind so many, to a multiple of 4.
fn pad(out: &mut Text, size: usize) -> Result<(), Refused>
    requires { size < 2 ^ 32 }
    ensures { MatchResult result (λ done. out.new ≡ out.old ++ replicate (aligned size - size) 0) (λ why. why ≡ refused.Memory) }
{
    let zeros = padded(size as u64) as usize - size;
    out.extend(&ZEROS[..zeros])?;
    Ok(())
}

// Appends a segment of object `object`, with its relocations applied, and padded to a multiple of 4.
fn append_segment(
    out: &mut Text,
    order: Order,
    bytes: &[u8],
    relocs: &[Reloc],
    frame: &Frame,
    object: usize,
    first: usize,
) -> Result<(), Refused>
    requires short { All (λ r. r.length ≤ 2) relocs.now }
    requires few { first < 2 ^ 63 }
    requires more { length relocs.now < 2 ^ 63 }
    requires size { length bytes.now < 2 ^ 32 }
    ensures { Appends (is_big order) object first frame.now bytes.now relocs.now result out.old out.new }
{
    let start = out.bytes().len();
    out.extend(bytes)?;
    let all = out.bytes_mut();
    if let Err(fault) = relocate_in(order, &mut all[start..], relocs, frame, object, first) {
        return Err(Refused::At(fault));
    }
    pad(out, bytes.len())
}

/// The text and the data of an image.
#[derive(Debug, Drop)]
pub struct Segments {
    pub text: Text,
    pub data_part: Text,
}

// Appends the segments of one object, whose entries are placed as `placed`.
fn append_object(
    text: &mut Text,
    datum: &mut Text,
    object: &Checked,
    at: usize,
    moves: &Moves,
    placed: &[Named],
) -> Result<(), Refused>
    ensures { AppendsObject at moves.now placed.now object.now result text.old text.new datum.old datum.new }
{
    let parts = object.parts();
    let named = object.named().items();
    let relocs = parts.text_relocs.items();
    let text_frame = Frame {
        moves: *moves,
        own: moves.text,
        named,
        placed,
    };
    append_segment(
        text,
        parts.order,
        parts.text.bytes(),
        relocs,
        &text_frame,
        at,
        0,
    )?;
    let data_frame = Frame {
        moves: *moves,
        own: moves.datum,
        named,
        placed,
    };
    append_segment(
        datum,
        parts.order,
        parts.data_part.bytes(),
        parts.data_relocs.items(),
        &data_frame,
        at,
        relocs.len(),
    )
}

/// The segments of all objects behind one another, each with its relocations applied and padded to a multiple of 4; `placed` are the
/// entries of all objects in the image. Refused at the first relocation that has a fault, by objects in order and those of text first:
/// `OUTSIDE`, then `SYMBOL`, then `OVERFLOW`; the place is the object's number, within the relocation's. Out of memory is an answer
/// of its own.
pub fn place_segments(
    alloc: Global,
    objects: &[Checked],
    moves: &[Moves],
    placed: &[Named],
) -> Result<Segments, Refused>
    requires moves { length moves.now ≡ length objects.now }
    requires placed { length (tables.entries_of objects.now) ≤ length placed.now }
    ensures { PlacesSegments placed.now moves.now objects.now result }
{
    let mut text = Text::new(alloc);
    let mut datum = Text::new(alloc);
    let mut rest = placed;
    for (at, object) in objects.iter().enumerate() {
        let (own, others) = rest.split_at(object.named().len());
        rest = others;
        if let Err(why) = append_object(&mut text, &mut datum, object, at, &moves[at], own) {
            return Err(why);
        }
    }
    Ok(Segments {
        text,
        data_part: datum,
    })
}
