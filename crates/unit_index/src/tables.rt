//! The new numbers of files: for each unit a map from the header that opens a range to the unit's own file for it, and for each kept unit
//! a table of these files, made once.

ghost use Rattle.std.specs.Prelude.{◌≡◌, List, [], ◌∷◌, ◌++◌, slice_get, Some, IfOk, OnOk};
ghost use Rattle.std.specs.Option.{option_copied};
ghost use Rattle.unit_index.specs.declared.owner.Owner.{Owner as SomeOwner};
ghost use Rattle.unit_index.specs.Filling.{more_files, Finds, number_of, numbers_of, owners_at, numbers_at, look_table, AreTables};

use crate::owner::{NO_FILE, Owner};
use st_base::{List, Memory};
use std::alloc::Global;
use std::collections::HashMap;

fn next_file(old: Option<&u32>, file: u32) -> u32
    ensures { result ≡ more_files (option_copied old.entry) file }
{
    match old {
        Some(_) => NO_FILE,
        None => file,
    }
}

// Notes a header of a unit by the header that opens its range.
fn note_file(files: &mut HashMap<(u32, u32), u32>, owner: &Owner) -> Result<(), Memory>
    ensures { OnOk result ((owners : List SomeOwner) → Finds files.old owners → Finds files.new (owners ++ owner.now ∷ [])) }
{
    let opener = (owner.owner_unit, owner.owner_file);
    let next = next_file(files.get(&opener), owner.file);
    files.insert(opener, next)?;
    Ok(())
}

/// The files of a unit by the headers that open their ranges, `NO_FILE` where two stand for one range.
pub(crate) fn files_of(alloc: Global, owners: &[Owner]) -> Result<HashMap<(u32, u32), u32>, Memory>
    ensures { IfOk result (λ files. Finds files owners.now) }
{
    let mut files = HashMap::new(alloc);
    for owner in owners {
        note_file(&mut files, owner)?;
    }
    Ok(files)
}

// The file of a unit with these owners that stands for the same range.
fn number(files: &HashMap<(u32, u32), u32>, _owners: &[Owner], kept: &Owner) -> u32
    requires { Finds files.now _owners.now }
    ensures { result ≡ number_of _owners.now kept.now }
{
    match files.get(&(kept.owner_unit, kept.owner_file)) {
        Some(file) => *file,
        None => NO_FILE,
    }
}

// For each file of a kept unit its number in the unit with these owners.
fn numbers(
    alloc: Global,
    files: &HashMap<(u32, u32), u32>,
    owners: &[Owner],
    kept: &[Owner],
) -> Result<List<u32>, Memory>
    requires { Finds files.now owners.now }
    ensures { IfOk result (λ table. table ≡ numbers_of owners.now kept.now) }
{
    let mut table = List::new(alloc);
    table.push(0)?;
    for owner in kept {
        table.push(number(files, owners, owner))?;
    }
    Ok(table)
}

fn owners_in<'a>(all: &'a [List<Owner>], unit: u32) -> &'a [Owner]
    ensures { result.now ≡ owners_at (slice_get all.now unit) }
{
    match all.get(unit as usize) {
        Some(owners) => owners.items(),
        None => &[],
    }
}

/// Makes the table of a kept unit, unless it is there.
pub(crate) fn need_table(
    alloc: Global,
    all: &[List<Owner>],
    files: &HashMap<(u32, u32), u32>,
    owners: &[Owner],
    tables: &mut HashMap<u32, List<u32>>,
    unit: u32,
) -> Result<(), Memory>
    requires finds { Finds files.now owners.now }
    requires tables { AreTables all.now owners.now tables.old }
    ensures tables { OnOk result (AreTables all.now owners.now tables.new) }
    ensures there { OnOk result (look_table tables.new unit ≡ Some (numbers_at all.now owners.now unit)) }
{
    if tables.contains_key(&unit) {
        return Ok(());
    }
    let table = numbers(alloc, files, owners, owners_in(all, unit))?;
    tables.insert(unit, table)?;
    Ok(())
}
