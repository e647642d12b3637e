//! `dump FILE`: the dump of an object: its header, the bytes of its segments, its relocations and its entries, a line each.

ghost use Rattle.std.specs.Prelude.{◌≡◌, ◌++◌, ◌+◌, ◌^◌, ◌<◌, ◌≤◌, IfOk, OnOk, length, take, drop};
ghost use Rattle.std.specs.Option.{option_copied};
ghost use Rattle.file_commands.specs.Dump as spec;
ghost use Rattle.file_commands.specs.QueryOutcomes.{Dumps, OnObject};

use crate::objects::object_of;
use crate::outcome::{DONE, Outcome, printed};
use aout_object::{Object, Parts};
use nlist_codec::Named;
use reloc::Reloc;
use st_base::{Memory, Order, Text, put_hex2, put_hex4, put_hex8, put_number, show};
use stab_codes::code_name;
use std::alloc::Global;

/// How many bytes of a segment stand in a line.
pub const ROW: usize = 16;

// ---- the header

fn put_order(order: Order, out: &mut Text) -> Result<(), Memory>
    ensures { OnOk result (out.new ≡ out.old ++ spec.order_word order) }
{
    match order {
        Order::Little => out.extend(b"little"),
        Order::Big => out.extend(b"big"),
    }
}

#[tactic(auto, unfolding(crate::specs::Dump::order_line))]
fn put_order_line(parts: &Parts, out: &mut Text) -> Result<(), Memory>
    ensures { OnOk result (out.new ≡ out.old ++ spec.order_line parts.now) }
{
    out.extend(b"order ")?;
    put_order(parts.order, out)?;
    out.extend(b" machine ")?;
    put_hex4(parts.machine, out)?;
    out.extend(b" entry ")?;
    put_hex8(parts.entry, out)?;
    out.push(b'\n')
}

#[tactic(auto, unfolding(crate::specs::Dump::sizes_line))]
fn put_sizes_line(parts: &Parts, out: &mut Text) -> Result<(), Memory>
    ensures { OnOk result (out.new ≡ out.old ++ spec.sizes_line parts.now) }
{
    out.extend(b"text ")?;
    put_number(parts.text.bytes().len() as u64, out)?;
    out.extend(b" data ")?;
    put_number(parts.data_part.bytes().len() as u64, out)?;
    out.extend(b" bss ")?;
    put_number(u64::from(parts.bss), out)?;
    out.push(b'\n')
}

// ---- the bytes of a segment

#[tactic(auto, unfolding(crate::specs::Dump::row_line))]
fn put_row(alloc: Global, address: u32, bytes: &[u8], out: &mut Text) -> Result<(), Memory>
    ensures { OnOk result (out.new ≡ out.old ++ spec.row_line address bytes.now) }
{
    let digits = hex::encode(alloc, bytes)?;
    put_hex8(address, out)?;
    out.push(b' ')?;
    out.extend(digits.as_bytes())?;
    out.push(b'\n')
}

// The row of bytes that begins at a place.
fn row_at(bytes: &[u8], at: usize) -> &[u8]
    requires { at < length bytes.now }
    ensures { result.now ≡ take ROW (drop at bytes.now) }
{
    let rest = &bytes[at..];
    if rest.len() < ROW { rest } else { &rest[..ROW] }
}

// The rows of bytes at an address.
fn put_rows(alloc: Global, address: u32, bytes: &[u8], out: &mut Text) -> Result<(), Memory>
    requires { address + length bytes.now < 2 ^ 32 }
    ensures { OnOk result (out.new ≡ out.old ++ spec.rows_text address bytes.now) }
{
    for row in 0..bytes.len().div_ceil(ROW) {
        let at = row * ROW;
        put_row(alloc, address + at as u32, row_at(bytes, at), out)?;
    }
    Ok(())
}

fn put_segments(alloc: Global, parts: &Parts, out: &mut Text) -> Result<(), Memory>
    requires { parts.now.entry + length parts.now.text + length parts.now.data_part < 2 ^ 32 }
    ensures { OnOk result (out.new ≡ out.old ++ spec.segments_text parts.now) }
{
    let text = parts.text.bytes();
    out.extend(b"text\n")?;
    put_rows(alloc, parts.entry, text, out)?;
    out.extend(b"data\n")?;
    put_rows(
        alloc,
        parts.entry + text.len() as u32,
        parts.data_part.bytes(),
        out,
    )
}

// ---- relocations

fn put_bit(is: bool, out: &mut Text) -> Result<(), Memory>
    ensures { OnOk result (out.new ≡ out.old ++ spec.bit is) }
{
    if is { out.push(b'1') } else { out.push(b'0') }
}

#[tactic(auto, unfolding(crate::specs::Dump::reloc_line))]
fn put_reloc(segment: &[u8], number: u64, reloc: &Reloc, out: &mut Text) -> Result<(), Memory>
    ensures { OnOk result (out.new ≡ out.old ++ spec.reloc_line segment.now number reloc.now) }
{
    out.extend(b"reloc ")?;
    out.extend(segment)?;
    out.push(b' ')?;
    put_number(number, out)?;
    out.push(b' ')?;
    put_hex8(reloc.address, out)?;
    out.push(b' ')?;
    put_number(u64::from(reloc.symbol), out)?;
    out.push(b' ')?;
    put_bit(reloc.pcrel, out)?;
    out.push(b' ')?;
    put_number(u64::from(reloc.length), out)?;
    out.push(b' ')?;
    put_bit(reloc.external, out)?;
    out.push(b'\n')
}

// The lines of relocations, the first of which has this number.
fn put_relocs(segment: &[u8], first: usize, relocs: &[Reloc], out: &mut Text) -> Result<(), Memory>
    requires { first + length relocs.now < 2 ^ 64 }
    ensures { OnOk result (out.new ≡ out.old ++ spec.relocs_text segment.now first relocs.now) }
{
    let mut number = first as u64;
    for reloc in relocs {
        put_reloc(segment, number, reloc, out)?;
        number += 1;
    }
    Ok(())
}

fn put_all_relocs(parts: &Parts, out: &mut Text) -> Result<(), Memory>
    requires { length parts.now.text_relocs + length parts.now.data_relocs < 2 ^ 64 }
    ensures { OnOk result (out.new ≡ out.old ++ spec.all_relocs_text parts.now) }
{
    let text = parts.text_relocs.items();
    put_relocs(b"text", 0, text, out)?;
    put_relocs(b"data", text.len(), parts.data_relocs.items(), out)
}

// ---- entries

fn put_kind(kind: u8, name: Option<&[u8]>, out: &mut Text) -> Result<(), Memory>
    ensures { OnOk result (out.new ≡ out.old ++ spec.kind_or kind (option_copied name.entry)) }
{
    match name {
        None => put_hex2(kind, out),
        Some(name) => out.extend(name),
    }
}

#[tactic(auto, unfolding(crate::specs::Dump::entry_line))]
fn put_entry(number: usize, entry: &Named, out: &mut Text) -> Result<(), Memory>
    ensures { OnOk result (out.new ≡ out.old ++ spec.entry_line number entry.now) }
{
    put_number(number as u64, out)?;
    out.push(b' ')?;
    put_kind(entry.kind, code_name(entry.kind), out)?;
    out.push(b' ')?;
    put_hex2(entry.other, out)?;
    out.push(b' ')?;
    put_hex4(entry.desc, out)?;
    out.push(b' ')?;
    put_hex8(entry.value, out)?;
    out.push(b' ')?;
    show(out, entry.name.bytes())?;
    out.push(b'\n')
}

fn put_entries(entries: &[Named], out: &mut Text) -> Result<(), Memory>
    ensures { OnOk result (out.new ≡ out.old ++ spec.entries_text entries.now) }
{
    for (number, entry) in entries.iter().enumerate() {
        put_entry(number, entry, out)?;
    }
    Ok(())
}

// ---- the dump

// What the limits of an object leave room for.
fn parts_of(object: &Object) -> &Parts
    ensures value { result.now ≡ object.now.parts }
    ensures addresses { object.now.parts.entry + length object.now.parts.text + length object.now.parts.data_part < 2 ^ 32 }
    ensures relocs { length object.now.parts.text_relocs + length object.now.parts.data_relocs < 2 ^ 64 }
{
    object.parts()
}

/// The dump of an object: `order O machine M entry E`; `text T data D bss B`; the bytes of text and of data, 16 in a line behind their
/// address; a line `reloc SEG I ADDRESS SYMBOL P L E` for each relocation and `I KIND OTHER DESC VALUE NAME` for each entry.
///
/// M and DESC have four hexadecimal digits, E, addresses and values eight, OTHER two; KIND is the name of a stab code, or two digits;
/// all other numbers are decimal. Out of memory is its only refusal. The text is this project's own.
pub fn dump_text(alloc: Global, object: &Object) -> Result<Text, Memory>
    ensures { IfOk result (λ text. text ≡ spec.dump_text object.now) }
{
    let mut out = Text::new(alloc);
    let parts = parts_of(object);
    let entries = object.named(alloc)?;
    put_order_line(parts, &mut out)?;
    put_sizes_line(parts, &mut out)?;
    put_segments(alloc, parts, &mut out)?;
    put_all_relocs(parts, &mut out)?;
    put_entries(entries.items(), &mut out)?;
    Ok(out)
}

fn dump_object(alloc: Global, object: &Object) -> Result<Outcome, Memory>
    ensures { IfOk result (Dumps object.now) }
{
    Ok(printed(DONE, dump_text(alloc, object)?))
}

/// The dump of the bytes of a file.
#[tactic(auto, using(crate::proofs::ReplyLemmas::by_object, crate::proofs::ReplyLemmas::by_refusal))]
pub(crate) fn dump_file(alloc: Global, name: &[u8], bytes: Text) -> Result<Outcome, Memory>
    ensures { IfOk result (OnObject name.now bytes Dumps) }
{
    match object_of(alloc, name, bytes)? {
        Ok(object) => dump_object(alloc, &object),
        Err(outcome) => Ok(outcome),
    }
}
