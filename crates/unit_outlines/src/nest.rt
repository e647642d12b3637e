//! The file and the header range of each entry, found in one walk from the first entry.

ghost use Rattle.std.specs.Prelude.{◌≡◌, ◌+◌, ◌-◌, ◌<◌, ◌≤◌, ◌^◌, ◌∷◌, [], List, option_map, unwrap_or, OnErr, OnOk};
ghost use Rattle.nlist_codec.specs.declared.named.Named.{Named as SomeNamed};
ghost use Rattle.unit_outlines.specs.Nests.{in_headers};
ghost use Rattle.unit_outlines.specs.Marks.{file_in, range_in};
ghost use Rattle.unit_outlines.specs.Sweeps.{Nests, all_behind, files_turned, start_behind};

use crate::kinds::{Nesting, is_header, nesting_in};
use crate::stack::Stack;
use nlist_codec::Named;
use st_base::Memory;
use stab_codes::{N_BINCL, N_EINCL, N_SO};
use std::alloc::Global;

/// A walk over entries that knows the file of the next one, and the header range in which it stands: which ranges are open after
/// those that it has passed.
///
/// File 0 is the main source of a unit, and file n its n-th header; a range has the place of its header among those of all units. A
/// walk may begin anywhere: before the first entry of a list, or after the N_SO of a unit. It takes memory for the ranges that are open,
/// of which there are no more than entries that it has passed. After "The stabs debug format", on include files; that each unit
/// numbers its own files is that of binutils.
#[derive(Debug, Drop)]
pub struct Nest {
    /// The numbers of the headers whose ranges are open, from 1 through all units; the innermost is on top.
    pub open: Stack,
    /// How many headers there were, through all units.
    pub headers: u64,
    /// How many of them stand before the unit.
    pub start: u64,
}

// How many headers there are up to this entry, where there are so many before it.
fn count(before: u64, entry: &Named) -> u64
    requires { before + 1 < 2 ^ 64 }
    ensures is { result ≡ all_behind before entry.now }
    ensures bound { result ≤ before + 1 }
{
    if is_header(entry.kind) {
        before + 1
    } else {
        before
    }
}

// How many headers stand before the unit after this entry.
fn start_of(start: u64, headers: u64, entry: &Named) -> u64
    ensures { result ≡ start_behind start headers entry.now }
{
    if entry.kind == N_SO { headers } else { start }
}

// The ranges that are open after one more entry; `number` is that of its header, if it opens one.
fn turn(stack: &mut Stack, entry: &Named, number: u64) -> Result<(), Memory>
    ensures turned { OnOk result (stack.new ≡ files_turned (in_headers entry.now) number stack.old) }
    ensures kept { OnErr result (stack.new ≡ stack.old) }
{
    match nesting_in(entry.kind, N_BINCL, N_EINCL) {
        Nesting::Opens => stack.push(number),
        Nesting::Closes => {
            let _closed = stack.pop();
            Ok(())
        }
        Nesting::Parts => {
            stack.clear();
            Ok(())
        }
        Nesting::Other => Ok(()),
    }
}

// The file of the header with this number, of a unit before which so many stand; 0 where there is none.
fn file_of(number: Option<u64>, start: u64) -> u64
    ensures { result ≡ unwrap_or number start - start }
{
    match number {
        Some(number) => number.saturating_sub(start),
        None => 0,
    }
}

// The place of the header with this number.
fn place_of(number: Option<u64>) -> Option<u64>
    ensures { result ≡ option_map (λ n. n - 1) number }
{
    match number {
        Some(number) => Some(number.saturating_sub(1)),
        None => None,
    }
}

impl Nest {
    /// Before the first entry: no range is open, and there was no header. Takes no memory.
    pub fn new(alloc: Global) -> Nest
        ensures start { Nests [] result }
        ensures none { result.headers ≡ 0 }
    {
        Nest {
            open: Stack::new(alloc),
            headers: 0,
            start: 0,
        }
    }

    /// Goes past an entry: an N_BINCL opens the range of its header, an N_EINCL closes the innermost one that is open, if there is
    /// one, and an N_SO closes all and begins a unit. Each N_BINCL and each N_EXCL is a header more. Out of memory is its only
    /// refusal, and then the walk stands where it stood.
    #[tactic(auto, using(crate::proofs::RangeLemmas::numbers_turned))]
    pub fn pass(&mut self, entry: &Named) -> Result<(), Memory>
        requires { self.old.headers + 1 < 2 ^ 64 }
        ensures bound { OnOk result (self.new.headers ≤ self.old.headers + 1) }
        ensures nests { OnOk result ((back : List SomeNamed) → Nests back self.old → Nests (entry.now ∷ back) self.new) }
        ensures kept { OnErr result (self.new ≡ self.old) }
    {
        let headers = count(self.headers, entry);
        turn(&mut self.open, entry, self.headers + 1)?;
        self.start = start_of(self.start, self.headers, entry);
        self.headers = headers;
        Ok(())
    }

    /// The file of the next entry: that of the innermost range that is open, or 0. Takes no memory.
    #[tactic(auto, using(crate::proofs::RangeLemmas::file_is))]
    pub fn file(&self) -> u64
        ensures { (back : List SomeNamed) → Nests back self.now → result ≡ file_in back 0 }
    {
        file_of(self.open.top(), self.start)
    }

    /// The place, from 0 among the headers of all units, of the header in whose range the next entry stands, if it is in one. Takes
    /// no memory.
    #[tactic(auto, using(crate::proofs::RangeLemmas::range_is))]
    pub fn range(&self) -> Option<u64>
        ensures { (back : List SomeNamed) → Nests back self.now → result ≡ range_in back 0 }
    {
        place_of(self.open.top())
    }
}
