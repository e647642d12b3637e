//! The joined string of a run of entries.

ghost use Rattle.std.specs.Prelude.{◌≡◌, ◌<◌, ◌^◌, ◌∷◌, ◌++◌, length, IfOk, IfSome, OnOk};
ghost use Rattle.unit_outlines.specs.Runs.{joined};
ghost use Rattle.stab_units.specs.Units.{string_of};

use nlist_codec::Named;
use st_base::{Memory, Text};
use stab_codes::carries_symbol;
use std::alloc::Global;
use unit_outlines::{goes_on, piece};

// Appends the joined string of the run that a list begins with.
fn push_joined(text: &mut Text, rest: &[Named]) -> Result<(), Memory>
    requires { length rest.now < 2 ^ 32 }
    ensures { OnOk result (text.new ≡ text.old ++ joined rest.now) }
{
    for (at, entry) in rest.iter().enumerate() {
        text.extend(piece(entry))?;
        if !goes_on(entry, &rest[at + 1..]) {
            return Ok(());
        }
    }
    Ok(())
}

// The string of the run that an entry that carries a symbol begins.
fn run_string(alloc: Global, entry: &Named, behind: &[Named]) -> Result<Text, Memory>
    requires { length behind.now < 2 ^ 32 }
    ensures { IfOk result (λ text. text ≡ joined (entry.now ∷ behind.now)) }
{
    let mut text = Text::of(alloc, piece(entry))?;
    if goes_on(entry, behind) {
        push_joined(&mut text, behind)?;
    }
    Ok(text)
}

/// The string of a stab, where it stands in one entry: the name where the stab carries no symbol, else what the entry has of the joined
/// string, if no entry goes on with it.
pub(crate) fn lent_string<'a>(entry: &'a Named, behind: &[Named]) -> Option<&'a [u8]>
    ensures { IfSome result (λ string. string.now ≡ string_of entry.now behind.now) }
{
    if !carries_symbol(entry.kind) {
        return Some(entry.name.bytes());
    }
    if goes_on(entry, behind) {
        return None;
    }
    Some(piece(entry))
}

/// The string of a stab: the joined one where it carries a symbol, else its name.
pub(crate) fn stab_string(alloc: Global, entry: &Named, behind: &[Named]) -> Result<Text, Memory>
    requires { length behind.now < 2 ^ 32 }
    ensures { IfOk result (λ text. text ≡ string_of entry.now behind.now) }
{
    if carries_symbol(entry.kind) {
        run_string(alloc, entry, behind)
    } else {
        entry.name.copy(alloc)
    }
}
