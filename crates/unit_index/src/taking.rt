//! What excluded headers take over: the symbols of the ranges that they stand for, as copies with new numbers.

ghost use Rattle.std.specs.Prelude.{◌≡◌, [], length, map, cond, slice_get, IfOk, OnOk};
ghost use Rattle.stab_symbols.specs.Files.{renumbered};
ghost use Rattle.unit_index.specs.Expanding.{symbols_at};
ghost use Rattle.unit_index.specs.Filling as filling;
ghost use Rattle.unit_index.specs.Indexes.{AsMany};
ghost use Rattle.unit_index.specs.Filling.{Finds, AreTables, taken_by, taken_from};

use crate::owner::Owner;
use crate::tables::{files_of, need_table};
use st_base::{List, Memory};
use stab_grammar::{Symbol, renumber};
use stab_units::{HeaderMark, Unit, UnitSpan};
use std::alloc::Global;
use std::collections::HashMap;
use type_graph::file_symbols;

// The symbols of a file as it was read; none where there is no such file.
fn symbols_of<'a>(units: &'a [Unit], unit: u32, file: u32) -> &'a [Symbol]
    ensures { result.now ≡ symbols_at units.now unit file }
{
    match units.get(unit as usize) {
        Some(unit) => file_symbols(unit, file),
        None => &[],
    }
}

fn renumber_all(
    alloc: Global,
    symbols: &[Symbol],
    table: &List<u32>,
) -> Result<List<Symbol>, Memory>
    ensures { IfOk result (λ made. made ≡ map (renumbered table.now) symbols.now) }
{
    let mut made = List::new(alloc);
    for symbol in symbols {
        made.push(renumber(alloc, symbol, table)?)?;
    }
    Ok(made)
}

// The symbols that a header takes over: none, unless it is excluded.
fn taken(
    alloc: Global,
    all: &[List<Owner>],
    units: &[Unit],
    files: &HashMap<(u32, u32), u32>,
    owners: &[Owner],
    tables: &mut HashMap<u32, List<u32>>,
    excluded: bool,
    owner: &Owner,
) -> Result<List<Symbol>, Memory>
    requires finds { Finds files.now owners.now }
    requires tables { AreTables all.now owners.now tables.old }
    ensures tables { OnOk result (AreTables all.now owners.now tables.new) }
    ensures symbols { IfOk result (λ symbols. symbols ≡ cond excluded (taken_by all.now units.now owners.now owner.now) []) }
{
    if !excluded {
        return Ok(List::new(alloc));
    }
    need_table(alloc, all, files, owners, tables, owner.owner_unit)?;
    let symbols = symbols_of(units, owner.owner_unit, owner.owner_file);
    match tables.get(&owner.owner_unit) {
        Some(table) => renumber_all(alloc, symbols, table),
        // Never, since the table was made.
        None => Ok(List::new(alloc)),
    }
}

// What each header of a unit takes over.
fn unit_taken(
    alloc: Global,
    all: &[List<Owner>],
    units: &[Unit],
    owners: &[Owner],
    headers: &[HeaderMark],
) -> Result<List<List<Symbol>>, Memory>
    requires { length owners.now ≡ length headers.now }
    ensures { IfOk result (λ lists. lists ≡ taken_from all.now units.now owners.now headers.now owners.now) }
{
    let files = files_of(alloc, owners)?;
    let mut tables = HashMap::new(alloc);
    let mut lists = List::new(alloc);
    for at in 0..headers.len() {
        let symbols = taken(
            alloc,
            all,
            units,
            &files,
            owners,
            &mut tables,
            headers[at].excluded,
            &owners[at],
        )?;
        lists.push(symbols)?;
    }
    Ok(lists)
}

/// What each header of each unit takes over.
pub(crate) fn all_taken(
    alloc: Global,
    outlines: &[UnitSpan],
    all: &[List<Owner>],
    units: &[Unit],
) -> Result<List<List<List<Symbol>>>, Memory>
    requires { AsMany outlines.now all.now }
    ensures { IfOk result (λ lists. lists ≡ filling.all_taken all.now units.now outlines.now all.now) }
{
    let mut lists = List::new(alloc);
    for unit in 0..outlines.len() {
        lists.push(unit_taken(
            alloc,
            all,
            units,
            all[unit].items(),
            outlines[unit].headers.items(),
        )?)?;
    }
    Ok(lists)
}
