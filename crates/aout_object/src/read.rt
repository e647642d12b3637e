ghost use Rattle.std.specs.Prelude.{◌≡◌, ◌+◌, ◌≤◌, ◌<◌, ◌^◌, length, drop, IfOk, IsErrOf, Ok, Err, None};
ghost use Rattle.st_base.specs.ByteOrder.{is_big};
ghost use Rattle.st_base.specs.declared.fault.Fault.{Fault};
ghost use Rattle.st_base.specs.Faults.{checked, first_fault, unless};
ghost use Rattle.aout_object.specs.Objects.{Contents, ObjectSpells, is_accepted_kind as the_accepted_kind};
ghost use Rattle.aout_object.specs.Checks as checks;
ghost use Rattle.aout_object.specs.Checks.{FileFault};
ghost use Rattle.aout_object.specs.Decoding as spec;
ghost use Rattle.aout_object.specs.Decoding.{Answers, Decodes, Gives};

use crate::object::Object;
use crate::parts::Parts;
use aout_layout::{Header, read_header};
use nlist_codec::{BSS_EXTERNAL, Entry, read_entries};
use reloc::{Reloc, read_reloc};
use st_base::{
    Fault, HEADER_SIZE, INSIDE, KIND, LEAST_STAB, LENGTH, List, NO_END, Order, PAST, RELOC_SIZE,
    Refused, TRAILING, TRUNCATED, Text, WORD_SIZE, first_word,
};
use std::alloc::Global;

// The header of a file: it has so many bytes, and they spell one.
fn header_of(bytes: &[u8]) -> Result<Header, Fault>
    ensures { result ≡ spec.header_in bytes.now }
{
    match bytes.split_first_chunk::<HEADER_SIZE>() {
        Some((front, _)) => read_header(front),
        None => Err(Fault::at(TRUNCATED, bytes.len() as u64)),
    }
}

/// Where the parts after text begin in a file.
#[derive(Clone, Copy, Debug, Drop)]
struct Places {
    data_part: usize,
    text_relocs: usize,
    data_relocs: usize,
    entries: usize,
    table: usize,
}

fn places_of(header: &Header) -> Places
    ensures { spec.ArePlaces header.now result }
{
    let data_part = HEADER_SIZE + header.text as usize;
    let text_relocs = data_part + header.data_part as usize;
    let data_relocs = text_relocs + header.text_relocs as usize;
    let entries = data_relocs + header.data_relocs as usize;
    let table = entries + header.symbols as usize;
    Places {
        data_part,
        text_relocs,
        data_relocs,
        entries,
        table,
    }
}

// The checks of the sizes of a file: all parts are there, then the string table, and nothing after it.
fn check_places(header: &Header, places: &Places, bytes: &[u8]) -> Result<(), Fault>
    requires { spec.ArePlaces header.now places.now }
    ensures { result ≡ checked (checks.place_checks header.now bytes.now) tt }
{
    let size = bytes.len();
    let table = places.table;
    if size < table {
        return Err(Fault::at(TRUNCATED, size as u64));
    }
    if header.symbols == 0 && size == table {
        return Ok(());
    }
    let Some(word) = first_word(header.order, &bytes[table..]) else {
        return Err(Fault::at(TRUNCATED, size as u64));
    };
    let word = word as usize;
    if word < WORD_SIZE {
        return Err(Fault::at(LENGTH, table as u64));
    }
    if size < table + word {
        return Err(Fault::at(TRUNCATED, size as u64));
    }
    if table + word < size {
        return Err(Fault::at(TRAILING, (table + word) as u64));
    }
    Ok(())
}

// The bytes of a part.
fn part(bytes: &[u8], at: usize, size: usize) -> &[u8]
    requires { at + size ≤ length bytes.now }
    ensures { result.now ≡ checks.part bytes.now at size }
{
    &bytes[at..at + size]
}

// The bytes from a place on.
fn part_from(bytes: &[u8], at: usize) -> &[u8]
    requires { at ≤ length bytes.now }
    ensures { result.now ≡ drop at bytes.now }
{
    &bytes[at..]
}

fn read_each_reloc<const BIG: bool>(
    alloc: Global,
    bytes: &[u8],
    first: usize,
) -> Result<List<Reloc>, Refused>
    requires { first + length bytes.now < 2 ^ 64 }
    ensures { Answers result (spec.relocs_fault BIG first (checks.reloc_pieces bytes.now)) (spec.relocs_in BIG bytes.now) }
{
    let mut relocs = List::new(alloc);
    let (pieces, _) = bytes.as_chunks::<RELOC_SIZE>();
    let mut place = first;
    for piece in pieces {
        match read_reloc::<BIG>(piece) {
            Ok(reloc) => relocs.push(reloc)?,
            Err(why) => return Err(Refused::At(Fault::at(why.number, place as u64))),
        }
        place += 1;
    }
    Ok(relocs)
}

// The relocations of a part, of which the first has the number `first` in the file.
fn read_relocs(
    alloc: Global,
    order: Order,
    bytes: &[u8],
    first: usize,
) -> Result<List<Reloc>, Refused>
    requires { first + length bytes.now < 2 ^ 64 }
    ensures { Answers result (spec.relocs_fault (is_big order) first (checks.reloc_pieces bytes.now)) (spec.relocs_in (is_big order) bytes.now) }
{
    match order {
        Order::Little => read_each_reloc::<false>(alloc, bytes, first),
        Order::Big => read_each_reloc::<true>(alloc, bytes, first),
    }
}

// The place after the last zero byte of a string table, where its last name ends; 0 where it has no zero byte.
fn end_of_names(strings: &[u8]) -> usize
    ensures { spec.EndsNames strings.now result }
{
    let mut end = strings.len();
    while 0 < end && strings[end - 1] != 0 {
        end -= 1;
    }
    end
}

// The name of an entry with this number: the string table, whose last name ends before `end`, has it.
fn check_name(strx: u32, strings: &[u8], end: usize, place: usize) -> Result<(), Fault>
    requires { spec.EndsNames strings.now end }
    ensures { result ≡ unless (spec.name_fault strings.now place strx) tt }
{
    let at = strx as usize;
    if at == 0 {
        return Ok(());
    }
    if at < WORD_SIZE {
        return Err(Fault::at(INSIDE, place as u64));
    }
    if strings.len() <= at {
        return Err(Fault::at(PAST, place as u64));
    }
    if end <= at {
        return Err(Fault::at(NO_END, place as u64));
    }
    Ok(())
}

/// Whether entries of this kind are accepted: stabs, and those up to `BSS_EXTERNAL`.
pub(crate) fn is_accepted_kind(kind: u8) -> bool
    ensures { result ≡ the_accepted_kind kind }
{
    LEAST_STAB <= kind || kind <= BSS_EXTERNAL
}

// An entry with this number: its kind is accepted, and the string table, whose last name ends before `end`, has its name.
fn check_entry(entry: &Entry, strings: &[u8], end: usize, place: usize) -> Result<(), Fault>
    requires { spec.EndsNames strings.now end }
    ensures { result ≡ unless (spec.entry_fault strings.now place entry.now) tt }
{
    if !is_accepted_kind(entry.kind) {
        return Err(Fault::at(KIND, place as u64));
    }
    check_name(entry.strx, strings, end, place)
}

// The entries of a file. The end of names is looked for once, so that many entries that name one long string cost no more than others.
fn check_entries(entries: &[Entry], strings: &[u8]) -> Result<(), Fault>
    ensures { result ≡ unless (spec.entries_fault strings.now 0 entries.now) tt }
{
    let end = end_of_names(strings);
    for (place, entry) in entries.iter().enumerate() {
        check_entry(entry, strings, end, place)?;
    }
    Ok(())
}

// Reads the segments and relocations of a file whose sizes are right.
fn read_parts(
    alloc: Global,
    header: &Header,
    places: &Places,
    bytes: &[u8],
) -> Result<Parts, Refused>
    requires places { spec.ArePlaces header.now places.now }
    requires whole { checks.table_at header.now ≤ length bytes.now }
    ensures { Answers result (spec.all_relocs_fault header.now bytes.now) (spec.contents_in header.now bytes.now).parts }
{
    let order = header.order;
    let text = Text::of(alloc, part(bytes, HEADER_SIZE, header.text as usize))?;
    let data_part = Text::of(
        alloc,
        part(bytes, places.data_part, header.data_part as usize),
    )?;
    let size = header.text_relocs as usize;
    let text_relocs = read_relocs(alloc, order, part(bytes, places.text_relocs, size), 0)?;
    let first = size / RELOC_SIZE;
    let size = header.data_relocs as usize;
    let data_relocs = read_relocs(alloc, order, part(bytes, places.data_relocs, size), first)?;
    Ok(Parts {
        order,
        machine: header.machine,
        bss: header.bss,
        entry: header.entry,
        text,
        data_part,
        text_relocs,
        data_relocs,
    })
}

// Reads a file whose sizes are right.
fn read_object(
    alloc: Global,
    header: &Header,
    places: &Places,
    bytes: &[u8],
) -> Result<Object, Refused>
    requires places { spec.ArePlaces header.now places.now }
    requires header { spec.header_in bytes.now ≡ Ok header.now }
    requires sizes { first_fault (checks.place_checks header.now bytes.now) ≡ None }
    ensures { Answers result (spec.records_fault header.now bytes.now) (spec.contents_in header.now bytes.now) }
{
    let parts = read_parts(alloc, header, places, bytes)?;
    let size = header.symbols as usize;
    let entries = read_entries(alloc, header.order, part(bytes, places.entries, size))?;
    let table = part_from(bytes, places.table);
    check_entries(entries.items(), table)?;
    let strings = Text::of(alloc, table)?;
    Ok(Object {
        parts,
        entries,
        strings,
    })
}

fn decode_whole(alloc: Global, bytes: &[u8]) -> Result<Object, Refused>
    ensures { Decodes result bytes.now }
{
    let header = header_of(bytes)?;
    let places = places_of(&header);
    check_places(&header, &places, bytes)?;
    read_object(alloc, &header, &places, bytes)
}

/// Decodes a file.
///
/// Refused at the first check that the file fails: `TRUNCATED` where it is shorter than a header; the faults of `read_header`;
/// `TRUNCATED` where a part before the string table is not whole; `TRUNCATED` or `LENGTH` where the string table is not whole or
/// its word is below 4, unless there are no entries and the file ends before it; `TRAILING` where bytes follow it; for each
/// relocation, text first, `LENGTH8`, `FLAG`, `SEGMENT`; for each entry `KIND`, and then `INSIDE`, `PAST`, `NO_END` of its name.
/// Out of memory is an answer of its own. After a.out(5).
pub fn decode(alloc: Global, bytes: &[u8]) -> Result<Object, Refused>
    ensures found { IfOk result (λ o. ObjectSpells o bytes.now) }
    ensures only { (o : Contents) → ObjectSpells o bytes.now → Gives result (Ok o) }
    ensures fault { (f : Fault) → IsErrOf result (spec.refused_at f) → FileFault bytes.now f }
    ensures first { (f : Fault) → FileFault bytes.now f → Gives result (Err f) }
{
    decode_whole(alloc, bytes)
}
