//! The ranges of all units of an entry list.

ghost use Rattle.std.specs.Prelude.{◌≡◌, ◌+◌, ◌<◌, ◌≤◌, ◌^◌, ℕ, Err, Some, None, length, map, slice_get, IfOk, OnOk};
ghost use Rattle.st_base.specs.declared.fault.Fault.{Fault};
ghost use Rattle.st_base.specs.declared.fault.Refused.{Refused};
ghost use Rattle.unit_outlines.specs.declared.outline_types.UnitSpan.{UnitSpan as SomeSpan};
ghost use Rattle.unit_outlines.specs.declared.outline_types.Marks.TheVariants.{Object};
ghost use Rattle.unit_outlines.specs.Outlines.{IsOutlined, OutlineFault, units_of};
ghost use Rattle.stab_units.specs.Units.{SpansFault, SpansFaultAfter, UnitFaultAfter, parsed, parsed_in, stabs_of};
ghost use Rattle.stab_units.specs.ObjectUnits.{UnitsFault, UnitsFaultAfter, strings_in};
ghost use Rattle.bincl_match.specs.Lawful.{IsLawful};
ghost use Rattle.bincl_match.specs.Ranges.{AreFound, AreRanges, among};
ghost use Rattle.bincl_match.specs.Reading.{AreTyped, HasRanges};

use crate::beside::all_changed;
use crate::crowd::crowded;
use crate::found::Found;
use crate::range::RangeOf;
use crate::unit_ranges::put_unit;
use nlist_codec::Named;
use st_base::{Fault, List, Memory, Refused, Steps};
use stab_units::{Marks, UnitSpan, outline, read_unit};
use std::alloc::Global;
use std::sync::ledger::Ledger;

// ---- units

// Reads the unit of a span and appends its ranges.
fn put_span<L: Ledger>(
    alloc: Global,
    out: &mut List<RangeOf>,
    number: u32,
    entries: &List<Named>,
    span: &UnitSpan,
    steps: &mut Steps<L>,
) -> Result<(), Refused>
    requires few { length entries.now < 2 ^ 32 }
    requires outlined { IsOutlined entries.now span.now }
    ensures found { OnOk result (HasRanges (stabs_of entries.now span.now) span.now number out.old out.new) }
    ensures stopped { (f : Fault) → result ≡ Err (Refused.At f) → UnitFaultAfter entries.now span.now f steps.old steps.new }
    ensures ticks { OnOk result (steps.new ≡ steps.old + parsed (stabs_of entries.now span.now)) }
{
    match read_unit(alloc, entries, span, steps) {
        Ok(unit) => match put_unit(alloc, out, number, entries.items(), span, &unit) {
            Ok(()) => Ok(()),
            Err(_) => Err(Refused::Memory),
        },
        Err(refusal) => Err(refusal),
    }
}

// The ranges of spans, in order.
fn read_spans<L: Ledger>(
    alloc: Global,
    entries: &List<Named>,
    spans: &[UnitSpan],
    steps: &mut Steps<L>,
) -> Result<List<RangeOf>, Refused>
    requires few { length entries.now < 2 ^ 32 }
    requires count { length spans.now ≤ length entries.now }
    requires outlined { (number : ℕ) (span : SomeSpan) → slice_get spans.now number ≡ Some span → IsOutlined entries.now span }
    ensures found { IfOk result (λ ranges. AreTyped entries.now spans.now ranges) }
    ensures stopped { (f : Fault) → result ≡ Err (Refused.At f) → SpansFaultAfter entries.now spans.now f steps.old steps.new }
    ensures ticks { IfOk result (λ ranges. steps.new ≡ steps.old + parsed_in entries.now spans.now) }
{
    let mut ranges = List::new(alloc);
    for (number, span) in spans.iter().enumerate() {
        match put_span(alloc, &mut ranges, number as u32, entries, span, steps) {
            Ok(()) => {}
            Err(refusal) => return Err(refusal),
        }
    }
    Ok(ranges)
}

// ---- candidates

/// The same ranges, of which none is a candidate whose name and shape some unit has twice.
pub(crate) fn told(alloc: Global, typed: List<RangeOf>) -> Result<List<RangeOf>, Memory>
    requires { length typed < 2 ^ 32 }
    ensures { IfOk result (λ ranges. ranges ≡ map (among typed) typed) }
{
    let flags = crowded(alloc, typed.items())?;
    let ranges = all_changed(alloc, typed, flags.items())?;
    Ok(ranges)
}

// ---- the whole

// The ranges of the spans of an outline.
fn span_ranges<L: Ledger>(
    alloc: Global,
    entries: &List<Named>,
    text_end: u32,
    spans: &[UnitSpan],
    steps: &mut Steps<L>,
) -> Result<List<RangeOf>, Refused>
    requires few { length entries.now < 2 ^ 32 }
    requires no_fault { OutlineFault Object entries.now None }
    requires outlined { spans.now ≡ units_of text_end entries.now }
    ensures found { IfOk result (λ ranges. AreFound text_end entries.now ranges) }
    ensures refused { (f : Fault) → result ≡ Err (Refused.At f) → SpansFault entries.now spans.now f }
    ensures stopped { (f : Fault) → result ≡ Err (Refused.At f) → SpansFaultAfter entries.now spans.now f steps.old steps.new }
    ensures ticks { IfOk result (λ ranges. steps.new ≡ steps.old + parsed_in entries.now spans.now) }
{
    match read_spans(alloc, entries, spans, steps) {
        Ok(ranges) => Ok(ranges),
        Err(refusal) => Err(refusal),
    }
}

// The header ranges of the entries of an object as they are found.
fn find_list<L: Ledger>(
    alloc: Global,
    entries: &List<Named>,
    text_end: u32,
    steps: &mut Steps<L>,
) -> Result<List<RangeOf>, Refused>
    requires { length entries.now < 2 ^ 32 }
    ensures found { IfOk result (λ ranges. AreFound text_end entries.now ranges) }
    ensures refused { (f : Fault) → result ≡ Err (Refused.At f) → UnitsFault text_end entries.now f }
    ensures stopped { (f : Fault) → result ≡ Err (Refused.At f) → UnitsFaultAfter text_end entries.now f steps.old steps.new }
    ensures ticks { IfOk result (λ ranges. steps.new ≡ steps.old + strings_in text_end entries.now) }
{
    match outline(alloc, entries, text_end, Marks::Object) {
        Ok(spans) => match span_ranges(alloc, entries, text_end, spans.items(), steps) {
            Ok(ranges) => Ok(ranges),
            Err(refusal) => Err(refusal),
        },
        Err(refusal) => Err(refusal),
    }
}

/// The header ranges of the entries of an object as they are found: in image order, unit by unit, and in a unit by the numbers of the
/// files.
///
/// `text_end` is the address at which text ends. A range is the header that an N_BINCL opens, with the shapes, files and sum of the
/// symbols of its file. It is a candidate exactly where each stab of its file, header marks apart, is that of an N_LSYM type symbol
/// (`t`, `T` or `Tt`), whatever other ranges there are. Refused with the fault of the outline, else with the fault of the first string
/// that spells no symbol, as by `units`. One step is taken for each string that is parsed: where the outline is refused none, and where
/// a string is refused one for each up to and with it. Takes memory for the ranges, and for one unit at a time; out of memory is its
/// own answer. After "The stabs debug format"; shapes, sums and candidates are this project's own.
pub fn find_ranges<L: Ledger>(
    alloc: Global,
    entries: &List<Named>,
    text_end: u32,
    steps: &mut Steps<L>,
) -> Result<Found, Refused>
    requires { length entries.now < 2 ^ 32 }
    ensures found { IfOk result (λ ranges. AreFound text_end entries.now ranges) }
    ensures refused { (f : Fault) → result ≡ Err (Refused.At f) → UnitsFault text_end entries.now f }
    ensures stopped { (f : Fault) → result ≡ Err (Refused.At f) → UnitsFaultAfter text_end entries.now f steps.old steps.new }
    ensures ticks { IfOk result (λ ranges. steps.new ≡ steps.old + strings_in text_end entries.now) }
{
    match find_list(alloc, entries, text_end, steps) {
        Ok(ranges) => Ok(Found::of(ranges)),
        Err(refusal) => Err(refusal),
    }
}

/// All header ranges of the entries of an object, as `find_ranges` finds them, but that none is a candidate whose name and shape some
/// unit has twice. It is refused and takes steps and memory as that call. After "The stabs debug format"; candidates are this project's
/// own.
pub fn ranges<L: Ledger>(
    alloc: Global,
    entries: &List<Named>,
    text_end: u32,
    steps: &mut Steps<L>,
) -> Result<List<RangeOf>, Refused>
    requires { length entries.now < 2 ^ 32 }
    ensures found { IfOk result (λ ranges. AreRanges text_end entries.now ranges) }
    ensures lawful { IfOk result (λ ranges. IsLawful ranges) }
    ensures few { IfOk result (λ ranges. length ranges < 2 ^ 32) }
    ensures refused { (f : Fault) → result ≡ Err (Refused.At f) → UnitsFault text_end entries.now f }
    ensures stopped { (f : Fault) → result ≡ Err (Refused.At f) → UnitsFaultAfter text_end entries.now f steps.old steps.new }
    ensures ticks { IfOk result (λ ranges. steps.new ≡ steps.old + strings_in text_end entries.now) }
{
    match find_list(alloc, entries, text_end, steps) {
        Ok(found) => match told(alloc, found) {
            Ok(ranges) => Ok(ranges),
            Err(_) => Err(Refused::Memory),
        },
        Err(refusal) => Err(refusal),
    }
}
