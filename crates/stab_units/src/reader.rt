//! One walk over the entries of a unit, which reads its stabs into files and body.

ghost use Rattle.std.specs.Prelude.{◌≡◌, ◌≢◌, ◌+◌, ◌<◌, ◌≤◌, ◌^◌, ◌∷◌, ◌++◌, [], ℕ, List, not, ◌&&◌, Err, cond, length, map, slice_get, slice_set, Some, IfOk, OnOk};
ghost use Rattle.st_base.specs.declared.fault.Fault.{Fault};
ghost use Rattle.st_base.specs.declared.fault.Refused.{Refused};
ghost use Rattle.nlist_codec.specs.declared.named.Named.{Named as SomeNamed};
ghost use Rattle.stab_codes.specs.Table as table;
ghost use Rattle.stab_codes.specs.declared.code.TheConstants.{N_SO};
ghost use Rattle.unit_outlines.specs.EntryWords as words;
ghost use Rattle.unit_outlines.specs.EntryWords.{next};
ghost use Rattle.unit_outlines.specs.Runs.{goes, link_at};
ghost use Rattle.unit_outlines.specs.Marks as marks;
ghost use Rattle.stab_units.specs.Units as spec;
ghost use Rattle.stab_units.specs.Units.{FaultAfter, HasFaultOf, IsTextOf, Stab, begun, body_at, item_of, parsed, spells, stabs_from, string_of};
ghost use Rattle.stab_units.specs.ReadingWalk.{HasRead, HasTaken, blank, with_symbol, with_text};

use crate::joined::{lent_string, stab_string};
use crate::symbols::is_type;
use crate::unit::{HeaderFile, Item, ItemText};
use nlist_codec::Named;
use st_base::{Fault, List, Memory, Refused, Steps, Text};
use stab_codes::carries_symbol;
use stab_grammar::{Symbol, parse};
use std::alloc::Global;
use std::sync::ledger::Ledger;
use unit_outlines::{Nest, goes_on, is_plain};

/// What is kept of the entries that were read.
#[derive(Debug, Drop)]
pub(crate) struct Reader {
    pub(crate) nest: Nest,
    /// Whether the next entry goes on with the string of the last one.
    pub(crate) going: bool,
    pub(crate) files: List<HeaderFile>,
    pub(crate) body: List<Item>,
}

// ---- one stab

fn is_empty(text: &[u8]) -> bool
    ensures { result ≡ words.is_empty text.now }
{
    text.is_empty()
}

// Whether an entry begins a stab, where the one before it goes on with it or not.
fn begins_stab(kind: u8, going: bool) -> bool
    ensures { result ≡ marks.is_plain kind && not going }
{
    is_plain(kind) && !going
}

// What the string of a stab is read as. A fault is reported with the number of the stab's entry.
fn read_text<L: Ledger>(
    alloc: Global,
    carries: bool,
    place: u64,
    string: &[u8],
    steps: &mut Steps<L>,
) -> Result<ItemText, Refused>
    ensures found { IfOk result (λ text. IsTextOf carries string.now text) }
    ensures refused { (f : Fault) → result ≡ Err (Refused.At f) → HasFaultOf carries string.now place f }
    ensures ticks { steps.new ≡ steps.old + cond (spells carries string.now) 1 0 }
{
    if !carries || is_empty(string) {
        return match Text::of(alloc, string) {
            Ok(text) => Ok(ItemText::Raw(text)),
            Err(_) => Err(Refused::Memory),
        };
    }
    match parse(alloc, string, steps) {
        Ok(symbol) => Ok(ItemText::Symbol(symbol)),
        Err(Refused::Memory) => Err(Refused::Memory),
        Err(Refused::At(fault)) => Err(Refused::At(Fault {
            number: fault.number,
            place,
            within: fault.place,
        })),
    }
}

// What the stab is read as that the entry with the number `place` begins.
fn read_stab<L: Ledger>(
    alloc: Global,
    place: u64,
    entry: &Named,
    behind: &[Named],
    steps: &mut Steps<L>,
) -> Result<ItemText, Refused>
    requires { length behind.now < 2 ^ 32 }
    ensures found { IfOk result (λ text. IsTextOf (table.carries_symbol entry.now.kind) (string_of entry.now behind.now) text) }
    ensures refused { (f : Fault) → result ≡ Err (Refused.At f) → HasFaultOf (table.carries_symbol entry.now.kind) (string_of entry.now behind.now) place f }
    ensures ticks { IfOk result (λ text. steps.new ≡ steps.old + cond (spells (table.carries_symbol entry.now.kind) (string_of entry.now behind.now)) 1 0) }
    ensures stopped { (f : Fault) → result ≡ Err (Refused.At f) → steps.new ≡ steps.old + 1 }
{
    let carries = carries_symbol(entry.kind);
    if let Some(string) = lent_string(entry, behind) {
        return read_text(alloc, carries, place, string, steps);
    }
    match stab_string(alloc, entry, behind) {
        Ok(string) => read_text(alloc, carries, place, string.bytes(), steps),
        Err(_) => Err(Refused::Memory),
    }
}

// ---- files and body

// The file at a place, in place of which an empty one stands.
fn taken(alloc: Global, files: &mut List<HeaderFile>, file: usize) -> HeaderFile
    requires { file < length files.old }
    ensures was { slice_get files.old file ≡ Some result }
    ensures left { files.new ≡ slice_set files.old file (record { name = []; symbols = [] }) }
{
    files.replace(
        file,
        HeaderFile {
            name: Text::new(alloc),
            symbols: List::new(alloc),
        },
    )
}

// Appends a symbol to those of a file, if there is such a file.
fn push_symbol(
    alloc: Global,
    files: &mut List<HeaderFile>,
    file: u64,
    symbol: Symbol,
) -> Result<(), Memory>
    ensures { OnOk result (files.new ≡ with_symbol files.old file symbol) }
{
    if (files.len() as u64) <= file {
        return Ok(());
    }
    let file = file as usize;
    let mut held = taken(alloc, files, file);
    held.symbols.push(symbol)?;
    let _empty = files.replace(file, held);
    Ok(())
}

// Files an item with its symbol, and puts it into the body unless it is a type.
fn file_item(
    alloc: Global,
    files: &mut List<HeaderFile>,
    body: &mut List<Item>,
    file: u64,
    entry: &Named,
    text: ItemText,
) -> Result<(), Memory>
    ensures files { OnOk result (files.new ≡ with_text files.old file text) }
    ensures body { OnOk result (body.new ≡ body.old ++ body_at (record { file = file; item = item_of entry.now text })) }
{
    let text = match text {
        ItemText::Raw(name) => ItemText::Raw(name),
        ItemText::Symbol(symbol) => {
            if is_type(symbol.descriptor) {
                return push_symbol(alloc, files, file, symbol);
            }
            push_symbol(alloc, files, file, symbol.copy(alloc)?)?;
            ItemText::Symbol(symbol)
        }
    };
    body.push(Item {
        kind: entry.kind,
        other: entry.other,
        desc: entry.desc,
        value: entry.value,
        text,
    })
}

// Reads the stab that an entry begins, if it begins one.
fn take_stab<L: Ledger>(
    alloc: Global,
    files: &mut List<HeaderFile>,
    body: &mut List<Item>,
    begins: bool,
    file: u64,
    place: u64,
    entry: &Named,
    behind: &[Named],
    steps: &mut Steps<L>,
) -> Result<(), Refused>
    requires { length behind.now < 2 ^ 32 }
    ensures found { OnOk result (HasTaken (begun begins entry.now place file behind.now) files.old files.new body.old body.new) }
    ensures stopped { (f : Fault) → result ≡ Err (Refused.At f) → FaultAfter (begun begins entry.now place file behind.now) f steps.old steps.new }
    ensures ticks { OnOk result (steps.new ≡ steps.old + parsed (begun begins entry.now place file behind.now)) }
{
    if !begins {
        return Ok(());
    }
    match read_stab(alloc, place, entry, behind, steps) {
        Ok(text) => match file_item(alloc, files, body, file, entry, text) {
            Ok(()) => Ok(()),
            Err(_) => Err(Refused::Memory),
        },
        Err(refusal) => Err(refusal),
    }
}

// ---- one entry

impl Reader {
    /// Before the first entry, with files that have names alone.
    pub(crate) fn new(alloc: Global, files: List<HeaderFile>) -> Reader
        ensures start { (names : List (List ℕ)) (start p : ℕ) (left : List SomeNamed) → files ≡ map blank names → HasRead (stabs_from [] p left) names start p left result start }
        ensures none { result.nest.headers ≡ 0 }
    {
        Reader {
            nest: Nest::new(alloc),
            going: false,
            files,
            body: List::new(alloc),
        }
    }

    /// Reads one more entry, which has the number `place`.
    pub(crate) fn read<L: Ledger>(
        &mut self,
        alloc: Global,
        place: u64,
        entry: &Named,
        behind: &[Named],
        steps: &mut Steps<L>,
    ) -> Result<(), Refused>
        requires few { length behind.now < 2 ^ 32 }
        requires headers { self.old.nest.headers < 2 ^ 32 }
        requires inside { entry.now.kind ≢ N_SO }
        ensures found { OnOk result ((all : List Stab) (names : List (List ℕ)) (start : ℕ) → HasRead all names start place (entry.now ∷ behind.now) self.old steps.old → HasRead all names start (place + 1) behind.now self.new steps.new) }
        ensures stopped { (f : Fault) → result ≡ Err (Refused.At f) → (all : List Stab) (names : List (List ℕ)) (start : ℕ) → HasRead all names start place (entry.now ∷ behind.now) self.old steps.old → FaultAfter all f start steps.new }
        ensures bound { OnOk result (self.new.nest.headers ≤ self.old.nest.headers + 1) }
    {
        let begins = begins_stab(entry.kind, self.going);
        let file = self.nest.file();
        self.going = goes_on(entry, behind);
        self.nest.pass(entry)?;
        match take_stab(
            alloc,
            &mut self.files,
            &mut self.body,
            begins,
            file,
            place,
            entry,
            behind,
            steps,
        ) {
            Ok(()) => Ok(()),
            Err(refusal) => Err(refusal),
        }
    }
}
