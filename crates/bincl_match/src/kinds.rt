//! Which stabs of a header range are N_LSYM stabs with a symbol.

ghost use Rattle.std.specs.Prelude.{◌≡◌, ◌<◌, ◌^◌, ◌∷◌, not, length};
ghost use Rattle.unit_outlines.specs.EntryWords as words;
ghost use Rattle.unit_outlines.specs.Runs.{joined};
ghost use Rattle.bincl_match.specs.Owning as spec;

use nlist_codec::Named;
use stab_codes::{N_LSYM, carries_symbol};
use stab_units::{goes_on, piece};

fn is_empty(name: &[u8]) -> bool
    ensures { result ≡ words.is_empty name.now }
{
    name.is_empty()
}

// Whether the joined string of the run that a list begins with has a byte.
fn has_text(rest: &[Named]) -> bool
    requires { length rest.now < 2 ^ 32 }
    ensures { result ≡ not (words.is_empty (joined rest.now)) }
{
    for (at, entry) in rest.iter().enumerate() {
        if !is_empty(piece(entry)) {
            return true;
        }
        if !goes_on(entry, &rest[at + 1..]) {
            return false;
        }
    }
    false
}

// Whether the run that an entry begins has a byte.
fn run_has_text(entry: &Named, behind: &[Named]) -> bool
    requires { length behind.now < 2 ^ 32 }
    ensures { result ≡ not (words.is_empty (joined (entry.now ∷ behind.now))) }
{
    if !is_empty(piece(entry)) {
        return true;
    }
    goes_on(entry, behind) && has_text(behind)
}

/// Whether the stab that an entry begins is an N_LSYM whose string is to spell a symbol.
pub(crate) fn is_ready(entry: &Named, behind: &[Named]) -> bool
    requires { length behind.now < 2 ^ 32 }
    ensures { result ≡ spec.is_ready_entry entry.now behind.now }
{
    if entry.kind != N_LSYM || !carries_symbol(entry.kind) {
        return false;
    }
    run_has_text(entry, behind)
}
