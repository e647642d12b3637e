//! What an entry is by its kind and its name: to marks that nest, to joined strings, to source marks.

ghost use Rattle.std.specs.Prelude.{◌≡◌, ◌++◌, length};
ghost use Rattle.st_base.specs.Stabs as base;
ghost use Rattle.unit_outlines.specs.EntryWords as words;
ghost use Rattle.unit_outlines.specs.EntryWords.{next};
ghost use Rattle.unit_outlines.specs.Nests.{nesting_of};
ghost use Rattle.unit_outlines.specs.Runs.{goes, is_open, link_at, piece_of};
ghost use Rattle.unit_outlines.specs.Marks as spec;
ghost use Rattle.unit_outlines.specs.Marks.{mark_at};

use nlist_codec::Named;
use st_base::LEAST_STAB;
use stab_codes::{N_BINCL, N_EINCL, N_EXCL, N_SO, carries_symbol};

/// What an entry is to marks that nest: it opens or closes one, it parts units, or it is none of these.
#[derive(Clone, Copy, Debug, Drop, PartialEq, Eq)]
pub enum Nesting {
    Opens,
    Closes,
    Parts,
    Other,
}

/// What an entry is to the next one: its string ends, goes on there, or should go on and does not.
#[derive(Clone, Copy, Debug, Drop, PartialEq, Eq)]
pub enum Link {
    Ends,
    Goes,
    Broken,
}

/// What an entry is to units: a directory mark, the start of a unit, an end mark, or no source mark.
#[derive(Clone, Copy, Debug, Drop, PartialEq, Eq)]
pub enum SourceMark {
    Directory,
    Start,
    Stop,
    NoMark,
}

pub(crate) fn nesting_in(kind: u8, begin: u8, end: u8) -> Nesting
    ensures { result ≡ nesting_of begin end kind }
{
    if kind == begin {
        Nesting::Opens
    } else if kind == end {
        Nesting::Closes
    } else if kind == N_SO {
        Nesting::Parts
    } else {
        Nesting::Other
    }
}

pub(crate) fn is_stab(kind: u8) -> bool
    ensures { result ≡ base.is_stab kind }
{
    LEAST_STAB <= kind
}

/// Whether an entry of this kind is the mark of a header: N_BINCL, which begins its range, or N_EXCL, which stands for a range that
/// is left out. Takes no memory. After "The stabs debug format", on include files.
pub fn is_header(kind: u8) -> bool
    ensures { result ≡ spec.is_header kind }
{
    kind == N_BINCL || kind == N_EXCL
}

/// Whether an entry of this kind is a stab and no mark of a header: none of N_BINCL, N_EINCL and N_EXCL. Takes no memory. After
/// "The stabs debug format", on include files.
pub fn is_plain(kind: u8) -> bool
    ensures { result ≡ spec.is_plain kind }
{
    is_stab(kind) && !(kind == N_BINCL || kind == N_EINCL || kind == N_EXCL)
}

// Whether the last byte of a name is this one.
fn ends_in(name: &[u8], byte: u8) -> bool
    ensures { result ≡ words.ends_in byte name.now }
{
    match name.last() {
        None => false,
        Some(last) => *last == byte,
    }
}

fn is_empty(name: &[u8]) -> bool
    ensures { result ≡ words.is_empty name.now }
{
    name.is_empty()
}

// Whether the name of the entry is empty.
pub(crate) fn is_nameless(entry: &Named) -> bool
    ensures { result ≡ words.is_empty entry.now.name }
{
    is_empty(entry.name.bytes())
}

// Whether the string of the entry is to go on.
fn is_to_go_on(entry: &Named) -> bool
    ensures { result ≡ is_open entry.now }
{
    carries_symbol(entry.kind) && ends_in(entry.name.bytes(), b'\\')
}

pub(crate) fn link_to(entry: &Named, behind: &[Named]) -> Link
    ensures { result ≡ link_at entry.now (next behind.now) }
{
    if !is_to_go_on(entry) {
        return Link::Ends;
    }
    if behind.is_empty() {
        return Link::Broken;
    }
    if behind[0].kind == entry.kind {
        Link::Goes
    } else {
        Link::Broken
    }
}

/// Whether the string of an entry goes on with the first of the entries after it: its stab carries a symbol, its name ends in `\`, and
/// that entry has the same kind. Takes no memory. After "The stabs debug format", on the length of strings; that it is the next entry of
/// the whole list is this project's own.
pub fn goes_on(entry: &Named, behind: &[Named]) -> bool
    ensures { result ≡ goes (link_at entry.now (next behind.now)) }
{
    match link_to(entry, behind) {
        Link::Goes => true,
        _ => false,
    }
}

/// The bytes that an entry adds to its string: those of its name without a `\` at the end, and none where its stab carries no symbol.
/// Takes no memory. After "The stabs debug format", on the length of strings.
pub fn piece(entry: &Named) -> &[u8]
    ensures { result.now ≡ piece_of entry.now }
{
    let bytes = entry.name.bytes();
    if !carries_symbol(entry.kind) {
        return &bytes[..0];
    }
    if ends_in(bytes, b'\\') {
        &bytes[..bytes.len() - 1]
    } else {
        bytes
    }
}

// Whether the first of these entries names a source.
fn names_source(behind: &[Named]) -> bool
    ensures { result ≡ spec.names_source (next behind.now) }
{
    if behind.is_empty() {
        return false;
    }
    let entry = &behind[0];
    entry.kind == N_SO && !is_nameless(entry) && !ends_in(entry.name.bytes(), b'/')
}

pub(crate) fn mark(entry: &Named, behind: &[Named]) -> SourceMark
    ensures { result ≡ mark_at entry.now (next behind.now) }
{
    if entry.kind != N_SO {
        return SourceMark::NoMark;
    }
    if is_nameless(entry) {
        return SourceMark::Stop;
    }
    if ends_in(entry.name.bytes(), b'/') && names_source(behind) {
        SourceMark::Directory
    } else {
        SourceMark::Start
    }
}
