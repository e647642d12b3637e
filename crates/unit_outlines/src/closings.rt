//! Where the header ranges of a unit end, found in one walk from its last entry.

ghost use Rattle.std.specs.Prelude.{◌≡◌, ◌+◌, ◌<◌, ◌^◌, ◌∷◌, [], ℕ, List, length, unwrap_or, IfOk, OnOk};
ghost use Rattle.nlist_codec.specs.declared.named.Named.{Named as SomeNamed};
ghost use Rattle.unit_outlines.specs.Nests.{in_headers};
ghost use Rattle.unit_outlines.specs.Sweeps.{Closed, ends_from, ends_turned};

use crate::kinds::{Nesting, nesting_in};
use crate::stack::Stack;
use nlist_codec::Named;
use st_base::Memory;
use stab_codes::{N_BINCL, N_EINCL};
use std::alloc::Global;

/// The number that was found, or another one.
pub(crate) fn or_number(found: Option<u64>, number: u64) -> u64
    ensures { result ≡ unwrap_or found number }
{
    match found {
        Some(found) => found,
        None => number,
    }
}

/// What is kept of the entries that were read from the last one on.
#[derive(Debug, Drop)]
pub(crate) struct Closings {
    /// For each entry the number after what would close it; the entry that was read last is on top.
    pub(crate) ends: Stack,
    /// The numbers after the ends that close something further up, nearest on top.
    pub(crate) open_ends: Stack,
}

// The ends that are open before one more entry; `behind` is the number after it.
fn turn(stack: &mut Stack, entry: &Named, behind: u64) -> Result<(), Memory>
    ensures { OnOk result (stack.new ≡ ends_turned (in_headers entry.now) behind stack.old) }
{
    match nesting_in(entry.kind, N_BINCL, N_EINCL) {
        Nesting::Opens => {
            let _closed = stack.pop();
        }
        Nesting::Closes => stack.push(behind)?,
        Nesting::Parts => stack.clear(),
        Nesting::Other => {}
    }
    Ok(())
}

impl Closings {
    fn new(alloc: Global) -> Closings
        ensures { (p : ℕ) → Closed p [] result }
    {
        Closings {
            ends: Stack::new(alloc),
            open_ends: Stack::new(alloc),
        }
    }

    // Reads one more entry, before those that were read; `behind` is the number after it.
    fn read(&mut self, entry: &Named, behind: u64) -> Result<(), Memory>
        ensures { OnOk result ((p : ℕ) (es : List SomeNamed) → p + 1 ≡ behind → Closed behind es self.old → Closed p (entry.now ∷ es) self.new) }
    {
        let past = or_number(self.open_ends.top(), behind);
        self.ends.push(past)?;
        turn(&mut self.open_ends, entry, behind)
    }
}

/// For each entry the number after what would close it, where the first entry has the number `first`; that of the first entry
/// is on top.
pub(crate) fn range_ends(alloc: Global, entries: &[Named], first: u64) -> Result<Stack, Memory>
    requires { first + length entries.now < 2 ^ 63 }
    ensures { IfOk result (λ ends. ends ≡ ends_from first entries.now) }
{
    let mut closings = Closings::new(alloc);
    let mut behind = first + entries.len() as u64;
    for at in (0..entries.len()).rev() {
        closings.read(&entries[at], behind)?;
        behind -= 1;
    }
    Ok(closings.ends)
}
