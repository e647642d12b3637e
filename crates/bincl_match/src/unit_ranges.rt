//! The ranges of one unit.

ghost use Rattle.std.specs.Prelude.{◌≡◌, ◌+◌, ◌<◌, ◌≤◌, ◌^◌, ◌&&◌, ◌++◌, length, map, flat_map, IfOk, OnOk};
ghost use Rattle.std.specs.List.{list_all};
ghost use Rattle.stab_symbols.specs.Files.{files_of, shape_of};
ghost use Rattle.unit_outlines.specs.EntryWords.{behind_first};
ghost use Rattle.stab_units.specs.Units.{IsUnitOf, stabs_of};
ghost use Rattle.bincl_match.specs.Ranges as spec;
ghost use Rattle.bincl_match.specs.Owning.{names_type};
ghost use Rattle.bincl_match.specs.Reading.{HasRanges, ready_ranges};

use crate::owning::own_ready;
use crate::range::RangeOf;
use crate::sums::sum_of;
use nlist_codec::Named;
use st_base::{List, Memory, Text};
use stab_grammar::{Symbol, numbers, shape};
use stab_units::{HeaderFile, Unit, UnitSpan, is_type};
use std::alloc::Global;

// ---- symbols

// Whether all symbols name types.
fn all_name_types(symbols: &[Symbol]) -> bool
    ensures { result ≡ list_all names_type symbols.now }
{
    for symbol in symbols {
        if !is_type(symbol.descriptor) {
            return false;
        }
    }
    true
}

fn shapes(alloc: Global, symbols: &[Symbol]) -> Result<List<Text>, Memory>
    ensures { IfOk result (λ out. out ≡ map shape_of symbols.now) }
{
    let mut out = List::new(alloc);
    for symbol in symbols {
        out.push(shape(alloc, symbol)?)?;
    }
    Ok(out)
}

// Appends the files of a symbol.
fn put_numbers(out: &mut List<u32>, files: &[u32]) -> Result<(), Memory>
    ensures { OnOk result (out.new ≡ out.old ++ files.now) }
{
    for file in files {
        out.push(*file)?;
    }
    Ok(())
}

fn all_numbers(alloc: Global, symbols: &[Symbol]) -> Result<List<u32>, Memory>
    ensures { IfOk result (λ out. out ≡ flat_map files_of symbols.now) }
{
    let mut out = List::new(alloc);
    for symbol in symbols {
        let files = numbers(alloc, symbol)?;
        put_numbers(&mut out, files.items())?;
    }
    Ok(out)
}

// ---- ranges

fn range_of(
    alloc: Global,
    unit: u32,
    file: u32,
    header: &HeaderFile,
    typed: bool,
) -> Result<RangeOf, Memory>
    ensures { IfOk result (λ x. x ≡ spec.range_of unit file header.now typed) }
{
    let symbols = header.symbols.items();
    Ok(RangeOf {
        unit,
        file,
        name: header.name.copy(alloc)?,
        shape: shapes(alloc, symbols)?,
        numbers: all_numbers(alloc, symbols)?,
        sum: sum_of(alloc, symbols)?,
        candidate: typed,
    })
}

// Whether the own entries of a file all belong to N_LSYM type symbols, where the flag says that they are N_LSYM entries with a symbol.
fn is_typed(ready: bool, header: &HeaderFile) -> bool
    ensures { result ≡ (ready && list_all names_type header.now.symbols) }
{
    ready && all_name_types(header.symbols.items())
}

// Appends the ranges of a unit's header files; file 0 is its main source.
fn put_headers(
    alloc: Global,
    out: &mut List<RangeOf>,
    unit: u32,
    files: &[HeaderFile],
    ready: &[bool],
) -> Result<(), Memory>
    requires count { length ready.now ≡ length files.now }
    requires few { length files.now ≤ 2 ^ 32 }
    ensures { OnOk result (out.new ≡ out.old ++ ready_ranges unit 1 (behind_first files.now) ready.now) }
{
    for file in 1..files.len() {
        let typed = is_typed(ready[file], &files[file]);
        let range = range_of(alloc, unit, file as u32, &files[file], typed)?;
        out.push(range)?;
    }
    Ok(())
}

/// Appends the ranges of a unit that was read.
pub(crate) fn put_unit(
    alloc: Global,
    out: &mut List<RangeOf>,
    number: u32,
    entries: &[Named],
    span: &UnitSpan,
    unit: &Unit,
) -> Result<(), Memory>
    requires few { length entries.now < 2 ^ 32 }
    requires within { span.now.first < length entries.now }
    requires headers { length span.now.headers ≤ length entries.now }
    requires read { IsUnitOf entries.now span.now unit.now }
    ensures { OnOk result (HasRanges (stabs_of entries.now span.now) span.now number out.old out.new) }
{
    let behind = span.first as usize + 1;
    let ready = own_ready(alloc, &entries[behind..], unit.files.len())?;
    put_headers(alloc, out, number, unit.files.items(), ready.items())?;
    Ok(())
}
