//! The spans of the units of a list, with the marks of their headers.

ghost use Rattle.std.specs.Prelude.{◌≡◌, ◌+◌, ◌≤◌, ◌<◌, ◌^◌, ◌++◌, length, IfOk, OnOk};
ghost use Rattle.unit_outlines.specs.Outlines as spec;
ghost use Rattle.unit_outlines.specs.Outlines.{header_at, headers_from, end_of, past_of, directory_of, span_at, units_of};

use crate::closings::{or_number, range_ends};
use crate::kinds::{SourceMark, mark};
use crate::outline_types::{HeaderMark, UnitSpan};
use nlist_codec::Named;
use st_base::{List, Memory, Text};
use stab_codes::{N_BINCL, N_EXCL, N_SO};
use std::alloc::Global;

// ---- headers

// How many entries stand before the next N_SO.
fn inner_count(rest: &[Named]) -> usize
    ensures is { result ≡ length (spec.inside rest.now) }
    ensures within { result ≤ length rest.now }
{
    for (at, entry) in rest.iter().enumerate() {
        if entry.kind == N_SO {
            return at;
        }
    }
    rest.len()
}

// The entries before the next N_SO.
#[tactic(auto, using(crate::proofs::SpanLemmas::inside_laws))]
fn inside(rest: &[Named]) -> &[Named]
    ensures is { result.now ≡ spec.inside rest.now }
    ensures within { length result.now ≤ length rest.now }
{
    &rest[..inner_count(rest)]
}

// Appends the mark of a header, if the entry is one.
fn push_header(
    alloc: Global,
    found: &mut List<HeaderMark>,
    entry: &Named,
    place: u64,
    past: u64,
) -> Result<(), Memory>
    requires { place < 2 ^ 63 }
    ensures { OnOk result (found.new ≡ found.old ++ header_at place past entry.now) }
{
    if entry.kind == N_BINCL {
        found.push(HeaderMark {
            name: entry.name.copy(alloc)?,
            first: place,
            past,
            excluded: false,
            value: entry.value,
        })?;
    } else if entry.kind == N_EXCL {
        found.push(HeaderMark {
            name: entry.name.copy(alloc)?,
            first: place,
            past: place + 1,
            excluded: true,
            value: entry.value,
        })?;
    }
    Ok(())
}

// The headers of a unit's entries, the first of which has the number `first`.
fn headers(alloc: Global, entries: &[Named], first: u64) -> Result<List<HeaderMark>, Memory>
    requires { first + length entries.now < 2 ^ 63 }
    ensures { IfOk result (λ found. found ≡ headers_from first entries.now) }
{
    let mut ends = range_ends(alloc, entries, first)?;
    let mut found: List<HeaderMark> = List::new(alloc);
    let mut place = first;
    for entry in entries {
        let past = or_number(ends.pop(), place + 1);
        push_header(alloc, &mut found, entry, place, past)?;
        place += 1;
    }
    Ok(found)
}

// ---- units

// Where the unit before these entries ends.
fn end_value(rest: &[Named], text_end: u32) -> u32
    ensures { result ≡ end_of text_end rest.now }
{
    for (at, entry) in rest.iter().enumerate() {
        match mark(entry, &rest[at + 1..]) {
            SourceMark::Start | SourceMark::Stop => return entry.value,
            _ => {}
        }
    }
    text_end
}

// How many of these entries belong to the unit before them.
fn past_count(rest: &[Named]) -> usize
    ensures is { result ≡ past_of rest.now }
    ensures within { result ≤ length rest.now }
{
    for (at, entry) in rest.iter().enumerate() {
        match mark(entry, &rest[at + 1..]) {
            SourceMark::Start | SourceMark::Directory => return at,
            _ => {}
        }
    }
    rest.len()
}

// The name of a directory mark, else none.
fn directory_behind(alloc: Global, mark: SourceMark, entry: &Named) -> Result<Text, Memory>
    ensures { IfOk result (λ name. name ≡ directory_of mark entry.now.name) }
{
    if mark == SourceMark::Directory {
        entry.name.copy(alloc)
    } else {
        Ok(Text::new(alloc))
    }
}

fn whole_name(alloc: Global, directory: &Text, own: &Text) -> Result<Text, Memory>
    ensures { IfOk result (λ name. name ≡ directory.now ++ own.now) }
{
    let mut name = directory.copy(alloc)?;
    name.extend(own.bytes())?;
    Ok(name)
}

// The unit that the entry with the number `place` begins, after a directory mark of this name.
fn span(
    alloc: Global,
    text_end: u32,
    directory: &Text,
    place: u64,
    entry: &Named,
    rest: &[Named],
) -> Result<UnitSpan, Memory>
    requires { place + 1 + length rest.now < 2 ^ 63 }
    ensures { IfOk result (λ made. made ≡ span_at text_end directory.now place entry.now rest.now) }
{
    let headers = headers(alloc, inside(rest), place + 1)?;
    Ok(UnitSpan {
        name: whole_name(alloc, directory, &entry.name)?,
        start: entry.value,
        end: end_value(rest, text_end),
        first: place,
        past: place + 1 + past_count(rest) as u64,
        headers,
    })
}

/// The spans of the units of a list, where text ends at `text_end`.
pub(crate) fn unit_spans(
    alloc: Global,
    entries: &[Named],
    text_end: u32,
) -> Result<List<UnitSpan>, Memory>
    requires { length entries.now < 2 ^ 32 }
    ensures { IfOk result (λ spans. spans ≡ units_of text_end entries.now) }
{
    let mut units: List<UnitSpan> = List::new(alloc);
    let mut directory = Text::new(alloc);
    for (at, entry) in entries.iter().enumerate() {
        let rest = &entries[at + 1..];
        let kind = mark(entry, rest);
        let behind = directory_behind(alloc, kind, entry)?;
        if kind == SourceMark::Start {
            units.push(span(alloc, text_end, &directory, at as u64, entry, rest)?)?;
        }
        directory = behind;
    }
    Ok(units)
}
