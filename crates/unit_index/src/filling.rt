//! The units that were read, with what their excluded headers take over. Nothing is copied, and no memory is taken.

ghost use Rattle.std.specs.Prelude.{◌≡◌, ◌+◌, length};
ghost use Rattle.unit_index.specs.Filling.{file_with, files_with, unit_with, units_with, AreFull, AreLists};

use st_base::{List, Text};
use stab_grammar::Symbol;
use stab_units::{HeaderFile, HeaderMark, Unit, UnitSpan};
use std::alloc::Global;

fn blank_file(alloc: Global) -> HeaderFile {
    HeaderFile {
        name: Text::new(alloc),
        symbols: List::new(alloc),
    }
}

fn blank_unit(alloc: Global) -> Unit {
    Unit {
        name: Text::new(alloc),
        start: 0,
        end: 0,
        files: List::new(alloc),
        body: List::new(alloc),
    }
}

// The file with the symbols that it takes over, if its header is excluded.
fn filled_file(file: HeaderFile, taken: List<Symbol>, excluded: bool) -> HeaderFile
    ensures { result ≡ file_with excluded taken file }
{
    if excluded {
        let HeaderFile {
            name,
            symbols: _none,
        } = file;
        return HeaderFile {
            name,
            symbols: taken,
        };
    }
    file
}

// The files of a unit, those of excluded headers with the symbols that they take over. Each stays at its place.
fn filled_files(
    alloc: Global,
    mut files: List<HeaderFile>,
    headers: &[HeaderMark],
    mut lists: List<List<Symbol>>,
) -> List<HeaderFile>
    requires files { length files ≡ length headers.now + 1 }
    requires lists { length lists ≡ length headers.now }
    ensures { result ≡ files_with headers.now files lists }
{
    for at in 0..headers.len() {
        let file = files.replace(at + 1, blank_file(alloc));
        let taken = lists.replace(at, List::new(alloc));
        let _blank = files.replace(at + 1, filled_file(file, taken, headers[at].excluded));
    }
    files
}

fn filled_unit(alloc: Global, unit: Unit, headers: &[HeaderMark], lists: List<List<Symbol>>) -> Unit
    requires files { length unit.files ≡ length headers.now + 1 }
    requires lists { length lists ≡ length headers.now }
    ensures { result ≡ unit_with (files_with headers.now unit.files lists) unit }
{
    let Unit {
        name,
        start,
        end,
        files,
        body,
    } = unit;
    Unit {
        name,
        start,
        end,
        files: filled_files(alloc, files, headers, lists),
        body,
    }
}

/// The units, each excluded header with the symbols that it takes over.
pub(crate) fn filled_units(
    alloc: Global,
    mut units: List<Unit>,
    outlines: &[UnitSpan],
    mut lists: List<List<List<Symbol>>>,
) -> List<Unit>
    requires full { AreFull outlines.now units }
    requires lists { AreLists outlines.now lists }
    ensures { result ≡ units_with outlines.now units lists }
{
    for at in 0..outlines.len() {
        let unit = units.replace(at, blank_unit(alloc));
        let taken = lists.replace(at, List::new(alloc));
        let filled = filled_unit(alloc, unit, outlines[at].headers.items(), taken);
        let _blank = units.replace(at, filled);
    }
    units
}
