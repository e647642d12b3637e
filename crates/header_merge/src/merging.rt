//! The entries of an image, made of those of its objects in one walk. A range goes with everything in it but the marks of headers, and
//! what stands in a range inside it goes or stays with that one:
//!
//! ```text
//! "x.h"  N_BINCL     a range that goes: an N_EXCL with the instance of the range that is kept for it
//! "i:t1"             goes
//! "y.h"  N_BINCL     a range that stays: an N_BINCL with its instance
//! "j:t2"             stays
//!        N_EINCL     stays
//!        N_EINCL     goes
//! ```

ghost use Rattle.std.specs.Prelude.{◌≡◌, ◌+◌, ◌<◌, ◌≤◌, ◌^◌, ◌==◌, ◌&&◌, ◌∷◌, ◌++◌, cond, List as Items, drop, length, IfOk, OnOk};
ghost use Rattle.std.specs.List.{slice_index_or};
ghost use Rattle.st_base.specs.Stabs as stabs;
ghost use Rattle.stab_codes.specs.declared.code.TheConstants.{N_BINCL, N_EXCL};
ghost use Rattle.nlist_codec.specs.declared.named.Named.{Named as SomeNamed};
ghost use Rattle.stab_units.specs.Changing.{Change, mark_changed};
ghost use Rattle.stab_units.specs.Changing as changing;
ghost use Rattle.header_merge.specs.Merged.{change_of, merged};
ghost use Rattle.header_merge.specs.Merged as image;
ghost use Rattle.header_merge.specs.Walking.{HasChanged, changed_by};

use bincl_match::Grouping;
use nlist_codec::Named;
use st_base::{LEAST_STAB, List, Memory, Text};
use stab_codes::{N_BINCL, N_EXCL};
use stab_units::{Nest, is_header};
use std::alloc::Global;

// ---- headers

// Whether the range at this place is kept for itself.
fn is_kept(grouping: &Grouping, place: usize) -> bool
    ensures { result ≡ image.is_kept grouping.now place }
{
    match grouping.kept.get(place) {
        None => true,
        Some(first) => *first as usize == place,
    }
}

// The instance of the range at this place.
fn instance_at(grouping: &Grouping, place: usize) -> u32
    ensures { result ≡ slice_index_or grouping.now.instance place 0 }
{
    match grouping.instance.get(place) {
        None => 0,
        Some(instance) => *instance,
    }
}

// Whether the entries of this range stay.
fn is_kept_in(grouping: &Grouping, range: Option<u64>) -> bool
    ensures { result ≡ changing.is_kept_in (change_of grouping.now) range }
{
    match range {
        None => true,
        Some(place) => is_kept(grouping, place as usize),
    }
}

// ---- entries

fn is_stab(kind: u8) -> bool
    ensures { result ≡ stabs.is_stab kind }
{
    LEAST_STAB <= kind
}

// The kind of the mark of a header whose entries stay or go.
fn mark_kind(kind: u8, kept: bool) -> u8
    ensures { result ≡ cond ((kind == N_BINCL) && kept) N_BINCL N_EXCL }
{
    if kind == N_BINCL && kept {
        N_BINCL
    } else {
        N_EXCL
    }
}

// The mark of the header at this place.
fn mark(grouping: &Grouping, place: usize, entry: Named) -> Named
    ensures { result ≡ mark_changed (change_of grouping.now) place entry }
{
    Named {
        kind: mark_kind(entry.kind, is_kept(grouping, place)),
        other: entry.other,
        desc: entry.desc,
        value: instance_at(grouping, place),
        name: entry.name,
    }
}

// Appends what an entry becomes after so many headers, in this range.
fn put(
    out: &mut List<Named>,
    grouping: &Grouping,
    place: usize,
    range: Option<u64>,
    entry: Named,
) -> Result<(), Memory>
    ensures { OnOk result (out.new ≡ out.old ++ changed_by (change_of grouping.now) place range entry) }
{
    if is_header(entry.kind) {
        out.push(mark(grouping, place, entry))?;
    } else if !is_stab(entry.kind) || is_kept_in(grouping, range) {
        out.push(entry)?;
    }
    Ok(())
}

// ---- the walk

// What is kept of the entries that were walked over, and what they became.
#[derive(Debug, Drop)]
pub(crate) struct Walk {
    pub(crate) nest: Nest,
    pub(crate) out: List<Named>,
}

impl Walk {
    // Before the first entry.
    fn new(alloc: Global) -> Walk
        ensures start { (c : Change) (entries : Items SomeNamed) → HasChanged c entries entries result }
        ensures none { result.nest.headers ≡ 0 }
    {
        Walk {
            nest: Nest::new(alloc),
            out: List::new(alloc),
        }
    }

    // Goes past an entry.
    fn pass(&mut self, grouping: &Grouping, entry: Named) -> Result<(), Memory>
        requires { self.old.nest.headers + 1 < 2 ^ 64 }
        ensures bound { OnOk result (self.new.nest.headers ≤ self.old.nest.headers + 1) }
        ensures changed { let c = change_of grouping.now in OnOk result ((entries left : Items SomeNamed)
            → HasChanged c entries (entry ∷ left) self.old → HasChanged c entries left self.new) }
    {
        let place = self.nest.headers as usize;
        let range = self.nest.range();
        self.nest.pass(&entry)?;
        put(&mut self.out, grouping, place, range, entry)?;
        Ok(())
    }
}

// Takes an entry out of a list.
fn take_out(alloc: Global, entries: &mut List<Named>, at: usize) -> Named
    requires { at < length entries.old }
    ensures count { length entries.new ≡ length entries.old }
    ensures left { drop at entries.old ≡ result ∷ drop (at + 1) entries.new }
{
    // the list hands out an entry only for another one, so an empty one takes its place
    let none = Named {
        kind: 0,
        other: 0,
        desc: 0,
        value: 0,
        name: Text::new(alloc),
    };
    entries.replace(at, none)
}

/// The entries of an image of whose header ranges each is kept, or has another one kept for it, as `grouping` says. A kept range stays,
/// with its instance as the value of its N_BINCL. Of each other one the entries and the N_EINCL go, and its mark becomes an N_EXCL with
/// the instance of the range that is kept for it.
///
/// Ranges are counted from 0 through all units, one for each N_BINCL and N_EXCL; of a range for which `grouping` has no place everything
/// stays, with 0 as the value of its mark. An N_SO ends all ranges that are open. Any entries are taken, and moved. Out of memory
/// is its only refusal: memory is taken for the new list and for a place of each open range. After "The stabs debug format", on include
/// files; instances are this project's own.
pub fn merge_headers(
    alloc: Global,
    entries: List<Named>,
    grouping: &Grouping,
) -> Result<List<Named>, Memory>
    ensures { IfOk result (λ out. out ≡ merged grouping.now entries) }
{
    let mut entries = entries;
    let mut walk = Walk::new(alloc);
    for at in 0..entries.len() {
        let entry = take_out(alloc, &mut entries, at);
        walk.pass(grouping, entry)?;
    }
    let Walk { out, .. } = walk;
    Ok(out)
}
