ghost use Rattle.std.specs.Prelude.{◌≡◌, ◌+◌, ◌<◌, ◌^◌, ◌++◌, ◌∷◌, [], ℕ, List, Err, Some, length, map, slice_get, IfOk, OnOk};
ghost use Rattle.st_base.specs.declared.fault.Fault.{Fault};
ghost use Rattle.st_base.specs.declared.fault.Refused.{Refused};
ghost use Rattle.unit_outlines.specs.declared.outline_types.UnitSpan.{UnitSpan as SomeSpan};
ghost use Rattle.stab_units.specs.declared.unit.Unit.{Unit as SomeUnit};
ghost use Rattle.unit_outlines.specs.Outlines.{IsOutlined};
ghost use Rattle.stab_units.specs.Units.{AreUnitsOf, FaultAfter, IsUnitOf, MakesUnit, SpansFault, SpansFaultAfter, Stab, UnitFault, UnitFaultAfter, names_of, parsed, parsed_in, stabs_from, stabs_of};
ghost use Rattle.stab_units.specs.ReadingWalk.{HasRead, HasReadAll, blank};
ghost use Rattle.stab_units.specs.ObjectUnits.{AreUnits, UnitsFault, UnitsFaultAfter, strings_in};

use crate::reader::Reader;
use crate::unit::{HeaderFile, Unit};
use nlist_codec::Named;
use st_base::{Fault, List, Memory, Refused, Steps, Text};
use stab_codes::N_SO;
use std::alloc::Global;
use std::sync::ledger::Ledger;
use unit_outlines::{Marks, UnitSpan, outline};

// ---- one unit

// A file without symbols.
fn blank_file(alloc: Global, name: &Text) -> Result<HeaderFile, Memory>
    ensures { IfOk result (λ file. file ≡ blank name.now) }
{
    Ok(HeaderFile {
        name: name.copy(alloc)?,
        symbols: List::new(alloc),
    })
}

// The files of a unit without their symbols.
fn blank_files(alloc: Global, span: &UnitSpan) -> Result<List<HeaderFile>, Memory>
    ensures { IfOk result (λ files. files ≡ map blank (names_of span.now)) }
{
    let mut files = List::new(alloc);
    files.push(blank_file(alloc, &span.name)?)?;
    for header in span.headers.items() {
        files.push(blank_file(alloc, &header.name)?)?;
    }
    Ok(files)
}

// Reads the stabs before the next N_SO; the first entry has the number `first`.
fn read_inside<L: Ledger>(
    alloc: Global,
    first: u64,
    rest: &[Named],
    reader: &mut Reader,
    steps: &mut Steps<L>,
) -> Result<(), Refused>
    requires few { length rest.now < 2 ^ 32 }
    requires place { first + length rest.now < 2 ^ 63 }
    requires headers { reader.old.nest.headers ≡ 0 }
    ensures found { OnOk result ((all : List Stab) (names : List (List ℕ)) (start : ℕ) → HasRead all names start first rest.now reader.old steps.old → HasReadAll all names start reader.new steps.new) }
    ensures stopped { (f : Fault) → result ≡ Err (Refused.At f) → (all : List Stab) (names : List (List ℕ)) (start : ℕ) → HasRead all names start first rest.now reader.old steps.old → FaultAfter all f start steps.new }
{
    let mut place = first;
    for (at, entry) in rest.iter().enumerate() {
        if entry.kind == N_SO {
            return Ok(());
        }
        match reader.read(alloc, place, entry, &rest[at + 1..], steps) {
            Ok(()) => {}
            Err(refusal) => return Err(refusal),
        }
        place += 1;
    }
    Ok(())
}

// The unit of a span of these files and this body.
fn made_unit(alloc: Global, span: &UnitSpan, reader: Reader) -> Result<Unit, Memory>
    ensures { IfOk result (λ unit. unit ≡ record { name = span.now.name; start = span.now.start; end = span.now.end; files = reader.files; body = reader.body }) }
{
    let Reader { files, body, .. } = reader;
    Ok(Unit {
        name: span.name.copy(alloc)?,
        start: span.start,
        end: span.end,
        files,
        body,
    })
}

// The unit of a span whose N_SO stands before these entries.
fn unit_behind<L: Ledger>(
    alloc: Global,
    span: &UnitSpan,
    rest: &[Named],
    steps: &mut Steps<L>,
) -> Result<Unit, Refused>
    requires few { length rest.now < 2 ^ 32 }
    requires place { span.now.first < 2 ^ 32 }
    ensures found { IfOk result (λ unit. MakesUnit (stabs_from [] (span.now.first + 1) rest.now) span.now unit) }
    ensures stopped { (f : Fault) → result ≡ Err (Refused.At f) → FaultAfter (stabs_from [] (span.now.first + 1) rest.now) f steps.old steps.new }
    ensures ticks { IfOk result (λ unit. steps.new ≡ steps.old + parsed (stabs_from [] (span.now.first + 1) rest.now)) }
{
    let Ok(files) = blank_files(alloc, span) else {
        return Err(Refused::Memory);
    };
    let mut reader = Reader::new(alloc, files);
    match read_inside(alloc, span.first + 1, rest, &mut reader, steps) {
        Ok(()) => match made_unit(alloc, span, reader) {
            Ok(unit) => Ok(unit),
            Err(_) => Err(Refused::Memory),
        },
        Err(refusal) => Err(refusal),
    }
}

// The unit of a span that begins at an entry.
fn unit_at<L: Ledger>(
    alloc: Global,
    entries: &[Named],
    span: &UnitSpan,
    steps: &mut Steps<L>,
) -> Result<Unit, Refused>
    requires few { length entries.now < 2 ^ 32 }
    requires within { span.now.first < length entries.now }
    ensures found { IfOk result (λ unit. IsUnitOf entries.now span.now unit) }
    ensures stopped { (f : Fault) → result ≡ Err (Refused.At f) → UnitFaultAfter entries.now span.now f steps.old steps.new }
    ensures ticks { IfOk result (λ unit. steps.new ≡ steps.old + parsed (stabs_of entries.now span.now)) }
{
    let behind = span.first as usize + 1;
    unit_behind(alloc, span, &entries[behind..], steps)
}

/// The unit of a span that `outline` gave for these entries.
///
/// Each stab is read once: a joined string that is to spell a symbol is parsed, all others stand as they are. The unit is refused
/// with the fault of the first string that spells no symbol, `BYTE`, `END` or `DEEP`: the place is the number of the first entry
/// of its run, within the place in the string. The file of an excluded header has no symbols. One step is taken for each string
/// that is parsed, that is for each that is not empty and whose stab carries a symbol; where a string is refused, one for each up to
/// and with it. Takes memory for the unit; out of memory is its own answer. After "The stabs debug format".
pub fn read_unit<L: Ledger>(
    alloc: Global,
    entries: &List<Named>,
    outline: &UnitSpan,
    steps: &mut Steps<L>,
) -> Result<Unit, Refused>
    requires few { length entries.now < 2 ^ 32 }
    requires outlined { IsOutlined entries.now outline.now }
    ensures found { IfOk result (λ unit. IsUnitOf entries.now outline.now unit) }
    ensures refused { (f : Fault) → result ≡ Err (Refused.At f) → UnitFault entries.now outline.now f }
    ensures stopped { (f : Fault) → result ≡ Err (Refused.At f) → UnitFaultAfter entries.now outline.now f steps.old steps.new }
    ensures ticks { IfOk result (λ unit. steps.new ≡ steps.old + parsed (stabs_of entries.now outline.now)) }
{
    unit_at(alloc, entries.items(), outline, steps)
}

// ---- all units

// Reads one more unit.
fn push_unit<L: Ledger>(
    alloc: Global,
    entries: &List<Named>,
    span: &UnitSpan,
    units: &mut List<Unit>,
    steps: &mut Steps<L>,
) -> Result<(), Refused>
    requires few { length entries.now < 2 ^ 32 }
    requires outlined { IsOutlined entries.now span.now }
    ensures found { OnOk result ((unit : SomeUnit) × IsUnitOf entries.now span.now unit × (units.new ≡ units.old ++ unit ∷ [])) }
    ensures stopped { (f : Fault) → result ≡ Err (Refused.At f) → UnitFaultAfter entries.now span.now f steps.old steps.new }
    ensures ticks { OnOk result (steps.new ≡ steps.old + parsed (stabs_of entries.now span.now)) }
{
    match read_unit(alloc, entries, span, steps) {
        Ok(unit) => match units.push(unit) {
            Ok(()) => Ok(()),
            Err(_) => Err(Refused::Memory),
        },
        Err(refusal) => Err(refusal),
    }
}

/// The units of spans that `outline` gave for these entries, in order, each as by `read_unit`. Refused with the fault of the first that has
/// one. One step is taken for each string that is parsed, and where one is refused, for each up to and with it. Takes memory for the
/// units; out of memory is its own answer.
pub fn read_spans<L: Ledger>(
    alloc: Global,
    entries: &List<Named>,
    spans: &[UnitSpan],
    steps: &mut Steps<L>,
) -> Result<List<Unit>, Refused>
    requires few { length entries.now < 2 ^ 32 }
    requires outlined { (number : ℕ) (span : SomeSpan) → slice_get spans.now number ≡ Some span → IsOutlined entries.now span }
    ensures found { IfOk result (λ units. AreUnitsOf entries.now spans.now units) }
    ensures refused { (f : Fault) → result ≡ Err (Refused.At f) → SpansFault entries.now spans.now f }
    ensures stopped { (f : Fault) → result ≡ Err (Refused.At f) → SpansFaultAfter entries.now spans.now f steps.old steps.new }
    ensures ticks { IfOk result (λ units. steps.new ≡ steps.old + parsed_in entries.now spans.now) }
{
    let mut units = List::new(alloc);
    for span in spans {
        match push_unit(alloc, entries, span, &mut units, steps) {
            Ok(()) => {}
            Err(refusal) => return Err(refusal),
        }
    }
    Ok(units)
}

/// The units of the entries of an object, where text ends at `text_end`: its outline, then each unit.
///
/// Refused with the fault of the outline, else with the fault of the first string that spells no symbol, as in `outline` and
/// `read_unit`. One step is taken for each string that is parsed: where the outline is refused none, and where a string is refused one
/// for each up to and with it. Takes memory for the units; out of memory is its own answer. After "The stabs debug format".
pub fn units<L: Ledger>(
    alloc: Global,
    entries: &List<Named>,
    text_end: u32,
    steps: &mut Steps<L>,
) -> Result<List<Unit>, Refused>
    requires { length entries.now < 2 ^ 32 }
    ensures found { IfOk result (λ units. AreUnits text_end entries.now units) }
    ensures refused { (f : Fault) → result ≡ Err (Refused.At f) → UnitsFault text_end entries.now f }
    ensures stopped { (f : Fault) → result ≡ Err (Refused.At f) → UnitsFaultAfter text_end entries.now f steps.old steps.new }
    ensures ticks { IfOk result (λ units. steps.new ≡ steps.old + strings_in text_end entries.now) }
{
    match outline(alloc, entries, text_end, Marks::Object) {
        Ok(spans) => read_spans(alloc, entries, spans.items(), steps),
        Err(refusal) => Err(refusal),
    }
}
