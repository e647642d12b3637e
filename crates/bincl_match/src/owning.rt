//! Whether the own entries of each file are N_LSYM entries with a symbol, found in one walk over the entries of a unit. That these
//! symbols name types is seen in the symbols of the file.

ghost use Rattle.std.specs.Prelude.{◌≡◌, ◌≢◌, ◌+◌, ◌<◌, ◌≤◌, ◌^◌, ◌∷◌, ◌&&◌, ◌||◌, ◌==◌, [], ℕ, List, Bool, true, false, cond, not, length, IfOk, OnOk};
ghost use Rattle.std.specs.List.{slice_index_or};
ghost use Rattle.stab_codes.specs.declared.code.TheConstants.{N_SO};
ghost use Rattle.nlist_codec.specs.declared.named.Named.{Named as SomeNamed};
ghost use Rattle.unit_outlines.specs.Marks as marks;
ghost use Rattle.stab_units.specs.Units.{stabs_from};
ghost use Rattle.bincl_match.specs.Owning.{AreReady, AreTrue, HasWalked, HasWalkedAll, is_ready_entry, is_ready_in};

use crate::kinds::is_ready;
use nlist_codec::Named;
use st_base::{List, Memory};
use stab_codes::N_SO;
use stab_units::{Nest, goes_on, is_plain};
use std::alloc::Global;

/// What is kept of the entries that were walked over.
#[derive(Debug, Drop)]
pub(crate) struct Owners {
    pub(crate) nest: Nest,
    /// Whether the next entry goes on with the string of the last one.
    pub(crate) going: bool,
    /// For each file whether all its own entries so far are N_LSYM entries with a symbol.
    pub(crate) ready: List<bool>,
}

// So many flags that are set.
fn all_true(alloc: Global, count: usize) -> Result<List<bool>, Memory>
    ensures { IfOk result (λ flags. AreTrue count flags) }
{
    let mut flags = List::new(alloc);
    for made in 0..count {
        flags.push(true)?;
    }
    Ok(flags)
}

// Lowers the flag of a file, if there is such a file, where the entry is not ready.
fn note(flags: &mut List<bool>, file: u64, ready: bool)
    ensures count { length flags.new ≡ length flags.old }
    ensures each { (f : ℕ) → f < length flags.old → slice_index_or flags.new f false ≡ (slice_index_or flags.old f false && cond (file == f) ready true) }
{
    if !ready && file < flags.len() as u64 {
        let _old = flags.replace(file as usize, false);
    }
}

// Whether an entry begins a stab, where the one before it goes on with it or not.
fn begins_stab(kind: u8, going: bool) -> bool
    ensures { result ≡ (marks.is_plain kind && not going) }
{
    is_plain(kind) && !going
}

// Whether an entry that begins a stab is an N_LSYM with a symbol.
fn leaves_ready(begins: bool, entry: &Named, behind: &[Named]) -> bool
    requires { length behind.now < 2 ^ 32 }
    ensures { result ≡ (not begins || is_ready_entry entry.now behind.now) }
{
    !begins || is_ready(entry, behind)
}

impl Owners {
    // Before the first entry.
    fn new(alloc: Global, files: usize) -> Result<Owners, Memory>
        ensures start { IfOk result (λ o. (p : ℕ) (left : List SomeNamed) → HasWalked (λ file. is_ready_in file (stabs_from [] p left)) files left o) }
        ensures none { IfOk result (λ o. o.nest.headers ≡ 0) }
    {
        Ok(Owners {
            nest: Nest::new(alloc),
            going: false,
            ready: all_true(alloc, files)?,
        })
    }

    // Goes past an entry.
    fn pass(&mut self, entry: &Named, behind: &[Named]) -> Result<(), Memory>
        requires few { length behind.now < 2 ^ 32 }
        requires headers { self.old.nest.headers < 2 ^ 32 }
        requires inside { entry.now.kind ≢ N_SO }
        ensures walked { OnOk result ((all : ℕ → Bool) (files : ℕ) → HasWalked all files (entry.now ∷ behind.now) self.old → HasWalked all files behind.now self.new) }
        ensures bound { OnOk result (self.new.nest.headers ≤ self.old.nest.headers + 1) }
    {
        let begins = begins_stab(entry.kind, self.going);
        let file = self.nest.file();
        let ready = leaves_ready(begins, entry, behind);
        note(&mut self.ready, file, ready);
        self.going = goes_on(entry, behind);
        self.nest.pass(entry)?;
        Ok(())
    }
}

// Walks over the entries before the next N_SO.
fn walk(rest: &[Named], owners: &mut Owners) -> Result<(), Memory>
    requires few { length rest.now < 2 ^ 32 }
    requires headers { owners.old.nest.headers ≡ 0 }
    ensures { OnOk result ((all : ℕ → Bool) (files : ℕ) → HasWalked all files rest.now owners.old → HasWalkedAll all files owners.new) }
{
    for (at, entry) in rest.iter().enumerate() {
        if entry.kind == N_SO {
            return Ok(());
        }
        owners.pass(entry, &rest[at + 1..])?;
    }
    Ok(())
}

/// For each of so many files whether all its own entries before the next N_SO are N_LSYM entries with a symbol.
pub(crate) fn own_ready(alloc: Global, rest: &[Named], files: usize) -> Result<List<bool>, Memory>
    requires { length rest.now < 2 ^ 32 }
    ensures { IfOk result (λ flags. (p : ℕ) → AreReady files (stabs_from [] p rest.now) flags) }
{
    let mut owners = Owners::new(alloc, files)?;
    walk(rest, &mut owners)?;
    let Owners { ready, .. } = owners;
    Ok(ready)
}
