//! An object as assembly: a line of each number, the bytes of text and data in rows of sixteen, a line for each relocation, and
//! one for each entry. One function prints one kind of line.

ghost use Rattle.std.specs.Prelude.{◌≡◌, ◌++◌, ◌∷◌, [], decimal, flat_map, codes, take, drop, OnOk, IfOk, ◌<◌};
ghost use Rattle.strtab.specs.StringTable.{name_in};
ghost use Rattle.aout_object.specs.Objects.{name_of, named_entry};
ghost use Rattle.stabs_asm.specs.Listing as spec;

use aout_object::Object;
use asm_statements::Part;
use nlist_codec::Entry;
use reloc::Reloc;
use st_base::{Memory, Text, put_hex2, put_hex8, put_number};
use std::alloc::Global;
use strtab::name_at;

// How many bytes of a row stand after its first.
const BEHIND_FIRST: usize = 15;

fn put_hex_byte(out: &mut Text, byte: u8) -> Result<(), Memory>
    ensures { OnOk result (out.new ≡ out.old ++ spec.hex_byte byte) }
{
    out.extend(b"0x")?;
    put_hex2(byte, out)
}

fn put_hex_word(out: &mut Text, word: u32) -> Result<(), Memory>
    ensures { OnOk result (out.new ≡ out.old ++ spec.hex_word word) }
{
    out.extend(b"0x")?;
    put_hex8(word, out)
}

fn put_number_and(out: &mut Text, number: u64) -> Result<(), Memory>
    ensures { OnOk result (out.new ≡ out.old ++ (decimal number ++ 44 ∷ [])) }
{
    put_number(number, out)?;
    out.push(b',')
}

fn put_numbers(out: &mut Text, kind: u8, other: u8, desc: u16, value: u32) -> Result<(), Memory>
    ensures { OnOk result (out.new ≡ out.old ++ (decimal kind ++ (44 ∷ (decimal other ++ (44 ∷ (decimal desc ++ (44 ∷ spec.hex_word value))))))) }
{
    put_number_and(out, u64::from(kind))?;
    put_number_and(out, u64::from(other))?;
    put_number_and(out, u64::from(desc))?;
    put_hex_word(out, value)
}

fn put_escaped(out: &mut Text, b: u8) -> Result<(), Memory>
    ensures { OnOk result (out.new ≡ out.old ++ spec.escaped b) }
{
    match b {
        b'"' | b'\\' => out.extend(&[b'\\', b]),
        32..=126 => out.push(b),
        _ => out.extend(&[b'\\', 48 + b / 64, 48 + b / 8 % 8, 48 + b % 8]),
    }
}

fn put_string(out: &mut Text, bytes: &[u8]) -> Result<(), Memory>
    ensures { OnOk result (out.new ≡ out.old ++ flat_map spec.escaped bytes.now) }
{
    for b in bytes {
        put_escaped(out, *b)?;
    }
    Ok(())
}

fn put_stabs(out: &mut Text, name: &[u8], entry: &Entry) -> Result<(), Memory>
    ensures { OnOk result (out.new ≡ out.old ++ spec.stabs_line (spec.entry_named name.now entry.now)) }
{
    out.extend(b".stabs \"")?;
    put_string(out, name)?;
    out.extend(b"\",")?;
    put_numbers(out, entry.kind, entry.other, entry.desc, entry.value)
}

fn put_stabn(out: &mut Text, name: &[u8], entry: &Entry) -> Result<(), Memory>
    ensures { OnOk result (out.new ≡ out.old ++ spec.stabn_line (spec.entry_named name.now entry.now)) }
{
    out.extend(b".stabn ")?;
    put_numbers(out, entry.kind, entry.other, entry.desc, entry.value)
}

fn put_named(out: &mut Text, name: &[u8], entry: &Entry) -> Result<(), Memory>
    ensures { OnOk result (out.new ≡ out.old ++ (spec.entry_line (spec.entry_named name.now entry.now) ++ 10 ∷ [])) }
{
    match name {
        [] => put_stabn(out, name, entry)?,
        [_, ..] => put_stabs(out, name, entry)?,
    }
    out.push(b'\n')
}

// The name at an offset of a string table; empty where there is none.
fn name_or_empty(strings: &[u8], strx: u32) -> &[u8]
    ensures { result.now ≡ name_of (name_in strings.now strx) }
{
    match name_at(strings, strx) {
        Ok(name) => name,
        Err(_) => &strings[..0],
    }
}

fn put_entry(out: &mut Text, strings: &[u8], entry: &Entry) -> Result<(), Memory>
    ensures { OnOk result (out.new ≡ out.old ++ (spec.entry_line (named_entry strings.now entry.now) ++ 10 ∷ [])) }
{
    let name = name_or_empty(strings, entry.strx);
    put_named(out, name, entry)
}

fn put_entries(out: &mut Text, strings: &[u8], entries: &[Entry]) -> Result<(), Memory>
    ensures { OnOk result (out.new ≡ out.old ++ flat_map (λ e. spec.entry_line (named_entry strings.now e) ++ 10 ∷ []) entries.now) }
{
    for entry in entries {
        put_entry(out, strings, entry)?;
    }
    Ok(())
}

fn put_bytes_on(out: &mut Text, bytes: &[u8]) -> Result<(), Memory>
    ensures { OnOk result (out.new ≡ out.old ++ spec.bytes_on bytes.now) }
{
    for b in bytes {
        out.push(b',')?;
        put_hex_byte(out, *b)?;
    }
    Ok(())
}

fn put_row(out: &mut Text, first: u8, others: &[u8]) -> Result<(), Memory>
    ensures { OnOk result (out.new ≡ out.old ++ (spec.byte_line first others.now ++ 10 ∷ [])) }
{
    out.extend(b".byte ")?;
    put_hex_byte(out, first)?;
    put_bytes_on(out, others)?;
    out.push(b'\n')
}

fn split_row(bytes: &[u8]) -> (&[u8], &[u8])
    ensures front { result.0.now ≡ take 15 bytes.now }
    ensures back { result.1.now ≡ drop 15 bytes.now }
{
    if bytes.len() < BEHIND_FIRST {
        (bytes, &bytes[..0])
    } else {
        bytes.split_at(BEHIND_FIRST)
    }
}

fn put_rows(out: &mut Text, bytes: &[u8]) -> Result<(), Memory>
    ensures { OnOk result (out.new ≡ out.old ++ spec.text_of (spec.byte_lines (spec.rows_of bytes.now))) }
{
    let mut rest = bytes;
    while let [first, more @ ..] = rest {
        let (others, behind) = split_row(more);
        put_row(out, *first, others)?;
        rest = behind;
    }
    Ok(())
}

fn flags_of(reloc: Reloc) -> u64
    ensures { result ≡ spec.flags_of reloc }
{
    let pcrel = if reloc.pcrel { 1u64 } else { 0u64 };
    let external = if reloc.external { 8u64 } else { 0u64 };
    pcrel + 2 * u64::from(reloc.length) + external
}

fn put_part(out: &mut Text, part: Part) -> Result<(), Memory>
    ensures { OnOk result (out.new ≡ out.old ++ spec.part_word part) }
{
    match part {
        Part::Text => out.extend(b"text"),
        Part::Data => out.extend(b"data"),
    }
}

fn put_rel(out: &mut Text, part: Part, reloc: Reloc) -> Result<(), Memory>
    ensures { OnOk result (out.new ≡ out.old ++ (spec.rel_line part reloc ++ 10 ∷ [])) }
{
    out.extend(b".rel ")?;
    put_part(out, part)?;
    out.push(b',')?;
    put_number_and(out, u64::from(reloc.address))?;
    put_number_and(out, u64::from(reloc.symbol))?;
    put_number(flags_of(reloc), out)?;
    out.push(b'\n')
}

fn put_rels(out: &mut Text, part: Part, relocs: &[Reloc]) -> Result<(), Memory>
    ensures { OnOk result (out.new ≡ out.old ++ flat_map (λ r. spec.rel_line part r ++ 10 ∷ []) relocs.now) }
{
    for reloc in relocs {
        put_rel(out, part, *reloc)?;
    }
    Ok(())
}

fn put_machine(out: &mut Text, machine: u16) -> Result<(), Memory>
    ensures { OnOk result (out.new ≡ out.old ++ ((codes ".machine " ++ decimal machine) ++ 10 ∷ [])) }
{
    out.extend(b".machine ")?;
    put_number(u64::from(machine), out)?;
    out.push(b'\n')
}

fn put_address(out: &mut Text, entry: u32) -> Result<(), Memory>
    ensures { OnOk result (out.new ≡ out.old ++ ((codes ".entry " ++ spec.hex_word entry) ++ 10 ∷ [])) }
{
    out.extend(b".entry ")?;
    put_hex_word(out, entry)?;
    out.push(b'\n')
}

fn put_bss(out: &mut Text, bss: u32) -> Result<(), Memory>
    ensures { OnOk result (out.new ≡ out.old ++ ((codes ".bsize " ++ decimal bss) ++ 10 ∷ [])) }
{
    out.extend(b".bsize ")?;
    put_number(u64::from(bss), out)?;
    out.push(b'\n')
}

/// An object as assembly: its numbers, the bytes of text and data, their relocations, and its entries with their names, in order.
/// Out of memory is its only refusal.
pub fn list(alloc: Global, object: &Object) -> Result<Text, Memory>
    ensures { IfOk result (λ t. t ≡ spec.listing object.now) }
{
    let mut out = Text::new(alloc);
    let parts = object.parts();
    put_machine(&mut out, parts.machine)?;
    put_address(&mut out, parts.entry)?;
    put_bss(&mut out, parts.bss)?;
    out.extend(b".text\n")?;
    put_rows(&mut out, parts.text.bytes())?;
    out.extend(b".data\n")?;
    put_rows(&mut out, parts.data_part.bytes())?;
    put_rels(&mut out, Part::Text, parts.text_relocs.items())?;
    put_rels(&mut out, Part::Data, parts.data_relocs.items())?;
    put_entries(&mut out, object.strings().bytes(), object.entries().items())?;
    Ok(out)
}
