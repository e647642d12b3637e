ghost use Rattle.std.specs.Prelude.{◌≡◌, ◌+◌, ◌≤◌, ◌<◌, ◌^◌, ℕ, IfOk, OnOk, fold};
ghost use Rattle.asm_objects.specs.Emitting.{Grows, OffsetsFit, TableFits};
ghost use Rattle.asm_objects.specs.Layout as spec;
ghost use Rattle.std.specs.Str.{bytes_eq};
ghost use Rattle.st_base.specs.FirstUses.{used};
ghost use Rattle.asm_objects.specs.DefinedNames.{same_name};

use crate::limits::GREATEST_POWER;
use crate::names::Names;
use crate::words::Words;
use asm_statements::{Part, Statement, What, size_of_width};
use st_base::{Memory, aligned};
use std::alloc::Global;

/// Where a statement stands: its segment, the offsets reached in text, data and bss, and how many entries and statements come
/// before it.
#[derive(Clone, Copy, Drop)]
pub struct Places {
    pub part: Part,
    pub text: u128,
    pub datum: u128,
    pub bss: u128,
    pub entries: u64,
    pub number: u64,
}

/// Where a name is defined.
#[derive(Clone, Copy, Drop)]
pub enum Home {
    Text,
    Data,
    Bss,
    Common,
}

/// The definition of a name: where, at which offset there (for a common the number of its entry), and by which statement.
#[derive(Clone, Copy, Drop)]
pub struct Definition {
    pub home: Home,
    pub offset: u128,
    pub number: u64,
}

/// What the first pass finds: the definitions, the names of `.globl`, and the places after the last statement.
#[derive(Drop)]
pub struct Table {
    pub names: Names,
    pub globals: Words,
    pub end: Places,
    pub entry: u64,
    pub machine: u64,
    pub bsize: u64,
}

/// Whether the name has no entry of its own.
pub(crate) fn is_local(name: &[u8]) -> bool
    ensures { result ≡ spec.is_local name.now }
{
    match name {
        [] => false,
        [first, ..] => *first == b'L',
    }
}

pub(crate) fn offset_in(places: Places) -> u128
    ensures { result ≡ spec.offset_in places }
{
    match places.part {
        Part::Text => places.text,
        Part::Data => places.datum,
    }
}

pub(crate) fn home_of(part: Part) -> Home
    ensures { result ≡ spec.home_of part }
{
    match part {
        Part::Text => Home::Text,
        Part::Data => Home::Data,
    }
}

fn grown(places: Places, size: u128) -> Places
    requires room { spec.Room places 1 }
    requires small { size ≤ 2 ^ 65 }
    ensures value { result ≡ spec.grown places size }
    ensures grows { Grows places result }
{
    let mut places = places;
    match places.part {
        Part::Text => places.text += size,
        Part::Data => places.datum += size,
    }
    places
}

fn listed(places: Places, without: bool) -> Places
    requires { places.entries < 2 ^ 60 }
    ensures value { result ≡ spec.listed places without }
    ensures text { result.text ≡ places.text }
    ensures datum { result.datum ≡ places.datum }
    ensures bss { result.bss ≡ places.bss }
    ensures entries { result.entries ≤ places.entries + 1 }
{
    let mut places = places;
    if !without {
        places.entries += 1;
    }
    places
}

fn reserved(places: Places, size: u64) -> Places
    requires { spec.Room places 1 }
    ensures value { result ≡ spec.reserved places size }
    ensures bss { result.bss ≤ places.bss + 2 ^ 65 }
{
    let mut places = places;
    places.bss = aligned(places.bss) + u128::from(size);
    places
}

// Two to this power, and one where it is over the greatest.
fn unit_of(power: u64) -> u128
    ensures value { result ≡ spec.unit_of power }
    ensures some { 1 ≤ result }
    ensures small { result ≤ 4096 }
{
    if power <= GREATEST_POWER {
        1 << power
    } else {
        1
    }
}

/// How many bytes are missing to the next multiple.
pub(crate) fn padding(power: u64, offset: u128) -> u128
    ensures value { result ≡ spec.padding power offset }
    ensures small { result ≤ 4096 }
{
    let unit = unit_of(power);
    (unit - offset % unit) % unit
}

fn moved(places: Places, what: &What) -> Places
    requires { spec.Room places 1 }
    ensures value { result ≡ spec.moved places what.now }
    ensures grows { Grows places result }
{
    match what {
        What::Label(name) => listed(places, is_local(name.bytes())),
        What::Switch(part) => Places {
            part: *part,
            ..places
        },
        What::Field(width, _) => grown(places, size_of_width(*width)),
        What::Space(size) => grown(places, u128::from(*size)),
        What::Globl(_) => places,
        What::Comm(_, _) => listed(places, false),
        What::Lcomm(name, size) => listed(reserved(places, *size), is_local(name.bytes())),
        What::Stab(_) => listed(places, false),
        What::Bytes(bytes) => grown(places, bytes.bytes().len() as u128),
        What::Align(power) => grown(places, padding(*power, offset_in(places))),
        What::Entry(_) => places,
        What::Machine(_) => places,
        What::Bsize(_) => places,
        What::Rel(_) => places,
    }
}

/// The places after a statement.
pub(crate) fn after(places: Places, statement: &Statement) -> Places
    requires { spec.Room places 1 }
    ensures value { result ≡ spec.after places statement.now }
    ensures room { (n : ℕ) → spec.Room places (n + 1) → spec.Room result n }
{
    let mut next = moved(places, &statement.what);
    next.number = places.number + 1;
    next
}

// Gives a name its definition, where it has none.
fn add_name(names: &mut Names, name: &[u8], definition: Definition) -> Result<(), Memory>
    requires { definition.offset < 2 ^ 124 }
    ensures value { OnOk result (names.new ≡ used same_name names.old (name.now, definition)) }
    ensures fits { OnOk result (OffsetsFit names.old → OffsetsFit names.new) }
{
    names.add(name, definition)?;
    Ok(())
}

fn define(names: &mut Names, places: Places, what: &What) -> Result<(), Memory>
    requires { spec.Room places 1 }
    ensures value { OnOk result (names.new ≡ fold (used same_name) names.old (spec.defined places what.now)) }
    ensures fits { OnOk result (OffsetsFit names.old → OffsetsFit names.new) }
{
    let number = places.number;
    match what {
        What::Label(name) => {
            let home = home_of(places.part);
            let offset = offset_in(places);
            add_name(
                names,
                name.bytes(),
                Definition {
                    home,
                    offset,
                    number,
                },
            )
        }
        What::Comm(name, _) => {
            let home = Home::Common;
            let offset = u128::from(places.entries);
            add_name(
                names,
                name.bytes(),
                Definition {
                    home,
                    offset,
                    number,
                },
            )
        }
        What::Lcomm(name, _) => {
            let home = Home::Bss;
            let offset = aligned(places.bss);
            add_name(
                names,
                name.bytes(),
                Definition {
                    home,
                    offset,
                    number,
                },
            )
        }
        _ => Ok(()),
    }
}

fn note_global(globals: &mut Words, what: &What) -> Result<(), Memory>
    ensures { OnOk result (globals.new ≡ fold (used bytes_eq) globals.old (spec.global what.now)) }
{
    match what {
        What::Globl(name) => globals.add(name.bytes()),
        _ => Ok(()),
    }
}

fn entry_after(entry: u64, what: &What) -> u64
    ensures { result ≡ fold spec.last entry (spec.entry_word what.now) }
{
    match what {
        What::Entry(word) => *word,
        _ => entry,
    }
}

fn machine_after(machine: u64, what: &What) -> u64
    ensures { result ≡ fold spec.last machine (spec.machine_word what.now) }
{
    match what {
        What::Machine(word) => *word,
        _ => machine,
    }
}

fn bsize_after(bsize: u64, what: &What) -> u64
    ensures { result ≡ fold spec.last bsize (spec.bss_size what.now) }
{
    match what {
        What::Bsize(size) => *size,
        _ => bsize,
    }
}

/// The places at the first statement.
pub(crate) fn start() -> Places
    ensures { result ≡ spec.start }
{
    Places {
        part: Part::Text,
        text: 0,
        datum: 0,
        bss: 0,
        entries: 0,
        number: 0,
    }
}

/// The first pass: what is defined where.
pub(crate) fn lay_out(alloc: Global, statements: &[Statement]) -> Result<Table, Memory>
    ensures table { IfOk result (λ t. t ≡ spec.table_of statements.now) }
    ensures fits { IfOk result TableFits }
{
    let mut names = Names::new(alloc);
    let mut globals = Words::new(alloc);
    let mut places = start();
    let mut entry = 0;
    let mut machine = 0;
    let mut bsize = 0;
    for statement in statements {
        define(&mut names, places, &statement.what)?;
        note_global(&mut globals, &statement.what)?;
        entry = entry_after(entry, &statement.what);
        machine = machine_after(machine, &statement.what);
        bsize = bsize_after(bsize, &statement.what);
        places = after(places, statement);
    }
    let end = places;
    Ok(Table {
        names,
        globals,
        end,
        entry,
        machine,
        bsize,
    })
}
