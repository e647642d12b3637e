//! The first fault of an outline, from one scan for each kind of fault. Each scan is one pass and takes no memory.

ghost use Rattle.std.specs.Prelude.{◌≡◌, ℕ, ◌+◌, ◌-◌, ◌<◌, ◌≤◌, ◌^◌, [], ◌∷◌, length, drop, Some, None, cond, ltb, false};
ghost use Rattle.st_base.specs.Faults.{fault_at};
ghost use Rattle.st_base.specs.declared.fault.TheConstants.{OPEN_HEADER, CLOSED_HEADER, BRACKETS};
ghost use Rattle.unit_outlines.specs.declared.limits.TheConstants.{STRING_LIMIT};
ghost use Rattle.unit_outlines.specs.Firsts.{sooner, first_told};
ghost use Rattle.unit_outlines.specs.Nests as nests;
ghost use Rattle.unit_outlines.specs.Nests.{nest_tell, in_headers, in_blocks};
ghost use Rattle.unit_outlines.specs.Runs.{link_at, piece_of, run_tell};
ghost use Rattle.unit_outlines.specs.Outlines.{place_tell, unit_tell, nests_tell, matches_tell, outline_tell, OutlineFault};
ghost use Rattle.unit_outlines.specs.Sweeps as spec;
ghost use Rattle.unit_outlines.specs.Sweeps.{sweep, of_kinds, begun, sweep_runs, told_in, sweep_places};

use crate::kinds::{Link, Nesting, is_header, is_nameless, is_stab, link_to, nesting_in, piece};
use crate::limits::{HEADER_LIMIT, STRING_LIMIT};
use crate::outline_types::Marks;
use nlist_codec::Named;
use st_base::{
    BRACKETS, CLOSED_HEADER, CONTINUATION, EXCLUDED, Fault, HEADERS, LONG, NO_UNIT, OPEN_HEADER,
};
use stab_codes::{N_BINCL, N_EINCL, N_EXCL, N_LBRAC, N_RBRAC, N_SO};

// The fault at the smaller place, and at one place that of the smaller number.
fn earlier(one: Option<Fault>, other: Option<Fault>) -> Option<Fault>
    ensures { result ≡ sooner one other }
{
    match one {
        None => other,
        Some(f) => match other {
            None => Some(f),
            Some(g) => {
                if g.place < f.place || (g.place == f.place && g.number < f.number) {
                    Some(g)
                } else {
                    Some(f)
                }
            }
        },
    }
}

fn told(number: u16, place: u64) -> Option<Fault>
    ensures { result ≡ Some (fault_at number place) }
{
    Some(Fault::at(number, place))
}

// ---- marks that nest

// Where the outermost open mark stands: here, where none is open yet.
fn start_of(depth: u64, outermost: u64, at: u64) -> u64
    ensures { result ≡ begun depth outermost at }
{
    if depth == 0 { at } else { outermost }
}

fn nest_sweep(entries: &[Named], begin: u8, end: u8, unclosed: u16, unopened: u16) -> Option<Fault>
    requires { length entries.now < 2 ^ 32 }
    ensures { result ≡ sweep (of_kinds begin end) unclosed unopened 0 0 0 entries.now }
{
    let mut depth: u64 = 0;
    let mut outermost: u64 = 0;
    for (at, entry) in entries.iter().enumerate() {
        match nesting_in(entry.kind, begin, end) {
            Nesting::Opens => {
                outermost = start_of(depth, outermost, at as u64);
                depth += 1;
            }
            Nesting::Closes => {
                if depth == 0 {
                    return told(unopened, at as u64);
                }
                depth -= 1;
            }
            Nesting::Parts => {
                if 0 < depth {
                    return told(unclosed, outermost);
                }
            }
            Nesting::Other => {}
        }
    }
    if 0 < depth {
        told(unclosed, outermost)
    } else {
        None
    }
}

// The first mark that is not closed or closes nothing, in each unit by itself.
#[tactic(auto, using(crate::proofs::NestSweep::nest_laws))]
fn nest_fault(entries: &[Named], begin: u8, end: u8, unclosed: u16, unopened: u16) -> Option<Fault>
    requires { length entries.now < 2 ^ 32 }
    ensures { result ≡ first_told (nest_tell (of_kinds begin end) unclosed unopened) [] 0 entries.now }
{
    nest_sweep(entries, begin, end, unclosed, unopened)
}

// ---- joined strings

fn pick(test: bool, one: u64, other: u64) -> u64
    ensures { result ≡ cond test one other }
{
    if test { one } else { other }
}

// Whether a string is too long with so many bytes more.
fn passes(so_far: u64, more: usize) -> bool
    requires { so_far ≤ STRING_LIMIT }
    ensures { result ≡ ltb STRING_LIMIT (so_far + more) }
{
    STRING_LIMIT - so_far < more as u64
}

// What is reported at an entry of the run that began at `first`.
fn told_here(link: Link, going: bool, long: bool, first: u64, at: u64) -> Option<Fault>
    ensures { result ≡ told_in link going long first at }
{
    if link == Link::Broken && !(going && long) {
        return told(CONTINUATION, at);
    }
    if long { told(LONG, first) } else { None }
}

fn runs_sweep(entries: &[Named]) -> Option<Fault>
    requires { length entries.now < 2 ^ 32 }
    ensures { result ≡ sweep_runs link_at piece_of false 0 0 0 entries.now }
{
    let mut going = false;
    let mut place: u64 = 0;
    let mut so_far: u64 = 0;
    for (at, entry) in entries.iter().enumerate() {
        let bond = link_to(entry, &entries[at + 1..]);
        let first = pick(going, place, at as u64);
        let before = pick(going, so_far, 0);
        let more = piece(entry).len();
        let long = passes(before, more);
        match told_here(bond, going, long, first, at as u64) {
            Some(fault) => return Some(fault),
            None => {}
        }
        going = bond == Link::Goes;
        place = first;
        so_far = before + more as u64;
    }
    None
}

// The first string that should go on and does not, or is too long.
#[tactic(auto, using(crate::proofs::RunSweep::runs_laws))]
fn runs_fault(entries: &[Named]) -> Option<Fault>
    requires { length entries.now < 2 ^ 32 }
    ensures { result ≡ first_told run_tell [] 0 entries.now }
{
    runs_sweep(entries)
}

// ---- stabs by themselves

fn within_behind(before: bool, entry: &Named) -> bool
    ensures { result ≡ spec.within_behind before entry.now }
{
    if entry.kind == N_SO {
        !is_nameless(entry)
    } else {
        before
    }
}

pub(crate) fn headers_behind(before: u64, entry: &Named) -> u64
    requires { before < 2 ^ 32 }
    ensures is { result ≡ spec.headers_behind before entry.now }
    ensures bound { result ≤ before + 1 }
{
    if entry.kind == N_SO {
        0
    } else if is_header(entry.kind) {
        before + 1
    } else {
        before
    }
}

// What is reported at an entry that is in a unit or not, and has so many headers of its unit before it.
fn told_alone(marks: Marks, within: bool, headers: u64, entry: &Named) -> Option<u16>
    ensures { result ≡ place_tell marks within headers entry.now }
{
    if !is_stab(entry.kind) || (entry.kind == N_SO && !is_nameless(entry)) {
        return None;
    }
    if !within {
        return Some(NO_UNIT);
    }
    if marks == Marks::Object && entry.kind == N_EXCL {
        return Some(EXCLUDED);
    }
    if is_header(entry.kind) && HEADER_LIMIT <= headers {
        Some(HEADERS)
    } else {
        None
    }
}

fn places_sweep(entries: &[Named], marks: Marks) -> Option<Fault>
    requires { length entries.now < 2 ^ 32 }
    ensures { result ≡ sweep_places marks false 0 0 entries.now }
{
    let mut within = false;
    let mut headers: u64 = 0;
    for (at, entry) in entries.iter().enumerate() {
        match told_alone(marks, within, headers, entry) {
            Some(number) => return told(number, at as u64),
            None => {}
        }
        within = within_behind(within, entry);
        headers = headers_behind(headers, entry);
    }
    None
}

// The first stab outside every unit, excluded header in an object, or header over the limit.
#[tactic(auto, using(crate::proofs::PlaceSweep::places_laws))]
fn unit_fault(entries: &[Named], marks: Marks) -> Option<Fault>
    requires { length entries.now < 2 ^ 32 }
    ensures { result ≡ first_told (unit_tell marks) [] 0 entries.now }
{
    places_sweep(entries, marks)
}

// ---- together

// The first fault of headers and blocks.
fn nests_fault(entries: &[Named]) -> Option<Fault>
    requires { length entries.now < 2 ^ 32 }
    ensures { result ≡ first_told nests_tell [] 0 entries.now }
{
    let headers = nest_fault(entries, N_BINCL, N_EINCL, OPEN_HEADER, CLOSED_HEADER);
    let blocks = nest_fault(entries, N_LBRAC, N_RBRAC, BRACKETS, BRACKETS);
    earlier(headers, blocks)
}

// The first fault of headers, blocks and joined strings.
fn matches_fault(entries: &[Named]) -> Option<Fault>
    requires { length entries.now < 2 ^ 32 }
    ensures { result ≡ first_told matches_tell [] 0 entries.now }
{
    let nests = nests_fault(entries);
    let runs = runs_fault(entries);
    earlier(nests, runs)
}

fn all_faults(entries: &[Named], marks: Marks) -> Option<Fault>
    requires { length entries.now < 2 ^ 32 }
    ensures { result ≡ first_told (outline_tell marks) [] 0 entries.now }
{
    let places = unit_fault(entries, marks);
    let matches = matches_fault(entries);
    earlier(places, matches)
}

/// The fault of an outline: that at the smallest entry, and there the one of the smallest number.
pub(crate) fn outline_fault(entries: &[Named], marks: Marks) -> Option<Fault>
    requires { length entries.now < 2 ^ 32 }
    ensures { OutlineFault marks entries.now result }
{
    all_faults(entries, marks)
}
