//! `check FILE`: how much an object has: its units, its headers, and the symbols of its files.

ghost use Rattle.std.specs.Prelude.{◌≡◌, ◌+◌, IfOk};
ghost use Rattle.file_commands.specs.Checking as spec;
ghost use Rattle.file_commands.specs.QueryOutcomes.{Checks, OnObject};

use crate::objects::object_of;
use crate::outcome::{DONE, Outcome, printed, refused};
use crate::reading::{entries_of, expand_entries};
use aout_object::Object;
use nlist_codec::Named;
use st_base::{List, Memory, Refused, Text, put_number};
use stab_codes::N_EXCL;
use stab_units::{Unit, is_header};
use std::alloc::Global;
use type_graph::World;

/// How many entries are marks of headers.
fn headers_in(entries: &[Named]) -> usize
    ensures { result ≡ spec.headers_in entries.now }
{
    entries.iter().filter(|entry| is_header(entry.kind)).count()
}

/// How many entries are marks of excluded headers.
fn excluded_in(entries: &[Named]) -> usize
    ensures { result ≡ spec.excluded_in entries.now }
{
    entries.iter().filter(|entry| entry.kind == N_EXCL).count()
}

// A sum of lengths of lists. That all of them are in memory bounds it, but no clause says so.
fn sum(total: u64, count: usize) -> Result<u64, Memory>
    ensures { IfOk result (λ sum. sum ≡ total + count) }
{
    match total.checked_add(count as u64) {
        Some(sum) => Ok(sum),
        None => Err(Memory),
    }
}

/// So many symbols, and those of the files of a unit.
fn add_symbols(before: u64, unit: &Unit) -> Result<u64, Memory>
    ensures { IfOk result (λ sum. sum ≡ before + spec.symbols_of unit.now) }
{
    let files = unit.files.items();
    let mut total = before;
    for file in files {
        total = sum(total, file.symbols.items().len())?;
    }
    Ok(total)
}

/// How many symbols the files of all units have.
fn symbols_in(world: &World) -> Result<u64, Memory>
    ensures { IfOk result (λ sum. sum ≡ spec.symbols_in world.now) }
{
    let units = world.units.items();
    let mut total = 0;
    for unit in units {
        total = add_symbols(total, unit)?;
    }
    Ok(total)
}

/// `units U headers H excluded X symbols S`: the units of a world, the N_BINCL and N_EXCL marks of its entries, the N_EXCL marks, and
/// the symbols of all files of all units. Out of memory is its only refusal.
#[tactic(auto, unfolding(crate::specs::Checking::check_text))]
pub fn check_text(alloc: Global, entries: &List<Named>, world: &World) -> Result<Text, Memory>
    ensures { IfOk result (λ text. text ≡ spec.check_text entries.now world.now) }
{
    let entries = entries.items();
    let mut text = Text::of(alloc, b"units ")?;
    put_number(world.units.items().len() as u64, &mut text)?;
    text.extend(b" headers ")?;
    put_number(headers_in(entries) as u64, &mut text)?;
    text.extend(b" excluded ")?;
    put_number(excluded_in(entries) as u64, &mut text)?;
    text.extend(b" symbols ")?;
    put_number(symbols_in(world)?, &mut text)?;
    text.push(b'\n')?;
    Ok(text)
}

/// How much an object has, which is let go once its entries are named.
fn check_object(alloc: Global, name: &[u8], object: Object) -> Result<Outcome, Memory>
    ensures { IfOk result (Checks name.now object) }
{
    let entries = entries_of(alloc, object)?;
    match expand_entries(alloc, &entries) {
        Ok(world) => Ok(printed(DONE, check_text(alloc, &entries.named, &world)?)),
        Err(Refused::At(fault)) => refused(alloc, name, fault),
        Err(Refused::Memory) => Err(Memory),
    }
}

/// How much the bytes of a file have.
#[tactic(auto, using(crate::proofs::ReplyLemmas::by_object, crate::proofs::ReplyLemmas::by_refusal))]
pub(crate) fn check_file(alloc: Global, name: &[u8], bytes: Text) -> Result<Outcome, Memory>
    ensures { IfOk result (OnObject name.now bytes (Checks name.now)) }
{
    match object_of(alloc, name, bytes)? {
        Ok(object) => check_object(alloc, name, object),
        Err(outcome) => Ok(outcome),
    }
}
