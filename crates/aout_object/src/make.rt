ghost use Rattle.std.specs.Prelude.{◌≡◌, ◌≢◌, ◌<◌, ◌≤◌, ◌^◌, ◌+◌, ◌*◌, [], ◌∷◌, length, All, IfOk, IfErr, OnOk, None};
ghost use Rattle.st_base.specs.ByteOrder.{is_big};
ghost use Rattle.st_base.specs.Faults.{checked, first_fault};
ghost use Rattle.nlist_codec.specs.Entries.{EntryFits};
ghost use Rattle.reloc.specs.Relocs.{RelocFits};
ghost use Rattle.strtab.specs.Names.{RefusesSize, size_of, offset_of, first_uses, added, table_of};
ghost use Rattle.strtab.specs.StringTable.{HasNoZero};
ghost use Rattle.aout_layout.specs.declared.header.TheConstants.{TWO_ORDERS};
ghost use Rattle.aout_object.specs.Objects.{file_of, named_of};
ghost use Rattle.aout_object.specs.Making as spec;
ghost use Rattle.aout_object.specs.Making.{HasWholeName};
ghost use Rattle.aout_object.specs.Decoding.{Answers};

use crate::object::Object;
use crate::parts::Parts;
use crate::read::is_accepted_kind;
use nlist_codec::{Entry, Named};
use reloc::Reloc;
use st_base::{
    ENTRY_SIZE, FILE_LIMIT, Fault, GREATEST_ADDRESS, HEADER_SIZE, KIND, List, Order, RELOC_SIZE,
    Refused, TOO_LARGE, Text,
};
use std::alloc::Global;
use strtab::Builder;

fn check_kinds(named: &[Named]) -> Result<(), Fault>
    ensures { result ≡ checked (spec.kinds_checks 0 named.now) tt }
{
    for (place, entry) in named.iter().enumerate() {
        if !is_accepted_kind(entry.kind) {
            return Err(Fault::at(KIND, place as u64));
        }
    }
    Ok(())
}

fn check_addresses(parts: &Parts) -> Result<(), Fault>
    ensures { result ≡ checked (spec.addresses_check parts.now ∷ []) tt }
{
    let end = parts.entry as u128
        + parts.text.bytes().len() as u128
        + parts.data_part.bytes().len() as u128
        + parts.bss as u128;
    if end > u128::from(GREATEST_ADDRESS) {
        return Err(Fault::at(TOO_LARGE, GREATEST_ADDRESS));
    }
    Ok(())
}

fn entry_with(strx: u32, kind: u8, other: u8, desc: u16, value: u32) -> Entry
    ensures value { result ≡ record { strx = strx; kind = kind; other = other; desc = desc; value = value } }
    ensures fits { EntryFits result }
{
    Entry {
        strx,
        kind,
        other,
        desc,
        value,
    }
}

fn entry_for(named: &Named, strx: u32) -> Entry
    ensures value { result ≡ spec.entry_at named.now strx }
    ensures fits { EntryFits result }
{
    entry_with(strx, named.kind, named.other, named.desc, named.value)
}

// Adds the names of entries to an empty table, and gives the entries.
fn add_entries(
    alloc: Global,
    builder: &mut Builder,
    named: &[Named],
) -> Result<List<Entry>, Refused>
    requires names { All HasWholeName named.now }
    requires empty { builder.old ≡ [] }
    ensures entries { IfOk result (λ entries. entries ≡ spec.entries_for (first_uses (spec.names_of named.now)) named.now) }
    ensures fits { IfOk result (λ entries. All EntryFits entries) }
    ensures names { OnOk result (builder.new ≡ first_uses (spec.names_of named.now)) }
    ensures refused { IfErr result (RefusesSize (size_of (first_uses (spec.names_of named.now)))) }
{
    let mut entries = List::new(alloc);
    for entry in named {
        let strx = builder.add(entry.name.bytes())?;
        entries.push(entry_for(entry, strx))?;
    }
    Ok(entries)
}

// The table of the names that were added.
fn finish(builder: Builder, order: Order) -> Text
    ensures table { result ≡ table_of (is_big order) builder }
    ensures fits { size_of builder < 2 ^ 32 }
{
    match order {
        Order::Little => builder.finish(Order::Little),
        Order::Big => builder.finish(Order::Big),
    }
}

// A number of this type is below 2^32, which a proof sees at a call.
fn is_word(number: u32)
    ensures { number < 2 ^ 32 }
{}

// The address of each relocation is a word.
fn addresses_are_words(relocs: &[Reloc])
    ensures { All (λ r. r.address < 2 ^ 32) relocs.now }
{
    for reloc in relocs {
        is_word(reloc.address);
    }
}

fn check_size(parts: &Parts, entries: usize, table: usize) -> Result<(), Fault>
    ensures { result ≡ checked (spec.size_check (spec.size_with parts.now entries table) ∷ []) tt }
{
    let relocs = parts.text_relocs.len() as u128 + parts.data_relocs.len() as u128;
    let size = HEADER_SIZE as u128
        + parts.text.bytes().len() as u128
        + parts.data_part.bytes().len() as u128
        + relocs * RELOC_SIZE as u128
        + entries as u128 * ENTRY_SIZE as u128
        + table as u128;
    if size > u128::from(FILE_LIMIT) {
        return Err(Fault::at(TOO_LARGE, FILE_LIMIT));
    }
    Ok(())
}

// A number of this type is below 2^16, which a proof sees at a call.
fn is_half(number: u16)
    ensures { number < 2 ^ 16 }
{}

// What an object needs of its parts that its type does not say to a caller.
fn parts_are_numbers(parts: &Parts)
    ensures machine { parts.now.machine < 2 ^ 16 }
    ensures text_relocs { All (λ r. r.address < 2 ^ 32) parts.now.text_relocs }
    ensures data_relocs { All (λ r. r.address < 2 ^ 32) parts.now.data_relocs }
{
    is_half(parts.machine);
    addresses_are_words(parts.text_relocs.items());
    addresses_are_words(parts.data_relocs.items());
}

// The object, where kinds and addresses are right.
fn make_checked(alloc: Global, parts: Parts, named: &[Named]) -> Result<Object, Refused>
    requires names { All HasWholeName named.now }
    requires text_relocs { All RelocFits parts.text_relocs }
    requires data_relocs { All RelocFits parts.data_relocs }
    requires machine { parts.machine ≢ TWO_ORDERS }
    requires kinds { first_fault (spec.kinds_checks 0 named.now) ≡ None }
    requires addresses { first_fault (spec.addresses_check parts ∷ []) ≡ None }
    ensures { Answers result (first_fault (spec.size_check (length (file_of (spec.made parts named.now))) ∷ [])) (spec.made parts named.now) }
{
    let mut builder = Builder::new(alloc)?;
    let entries = add_entries(alloc, &mut builder, named)?;
    let strings = finish(builder, parts.order);
    check_size(&parts, named.len(), strings.bytes().len())?;
    parts_are_numbers(&parts);
    Ok(Object {
        parts,
        entries,
        strings,
    })
}

impl Object {
    /// Makes an object of parts and of entries with their names. Each distinct name stands in the string table once, in order of
    /// first use; the table is there even without names. The conditions are that no name holds a zero byte, that each relocation
    /// can be written, and that the machine word is not 0x0701, with which the byte order would not be known.
    ///
    /// Refused at the first of these: `KIND` at the first entry of a kind that is not accepted; `TOO_LARGE` with place
    /// 4,294,967,295 where the end of bss passes that address; `TOO_LARGE` with place 134,217,728 where the file would have more
    /// bytes. Out of memory is an answer of its own. The parts are dropped where the call refuses.
    pub fn make(alloc: Global, parts: Parts, named: &List<Named>) -> Result<Object, Refused>
        requires names { All HasWholeName named.now }
        requires text_relocs { All RelocFits parts.text_relocs }
        requires data_relocs { All RelocFits parts.data_relocs }
        requires machine { parts.machine ≢ TWO_ORDERS }
        ensures made { Answers result (first_fault (spec.make_checks parts named.now)) (spec.made parts named.now) }
        ensures named { IfOk result (λ o. named_of o ≡ named.now) }
    {
        check_kinds(named.items())?;
        check_addresses(&parts)?;
        make_checked(alloc, parts, named.items())
    }
}
