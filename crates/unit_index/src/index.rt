//! The index of an image. One pass over the headers notes each N_BINCL by its name and value, a second one answers each N_EXCL by one
//! look-up.

ghost use Rattle.std.specs.Prelude.{◌≡◌, ℕ, ◌<◌, ◌^◌, ◌↔◌, List, [], ◌∷◌, ◌++◌, length, Err, Some, IfOk, OnOk, IsNone};
ghost use Rattle.std.specs.Option.{option_copied, option_map};
ghost use Rattle.st_base.specs.declared.fault.Fault.{Fault as SomeFault};
ghost use Rattle.unit_index.specs.Owners.{Row, row_at, unit_rows, rows_of, stands_for};
ghost use Rattle.unit_index.specs.Expanding.{IndexFault};
ghost use Rattle.unit_index.specs.Indexes.{IsIndex, HasHeader, AreInPlace, all_owners, opener};
ghost use Rattle.unit_index.specs.LookingUp.{more_of, Sees, IsOwner, AreOwners, AreAllOwners, AreFew};

use crate::owner::{HeaderAt, Owner};
use nlist_codec::Named;
use st_base::{AMBIGUOUS, Fault, List, Memory, NO_HEADER, Refused};
use stab_units::{HeaderMark, Marks, UnitSpan, outline};
use std::alloc::Global;
use std::collections::HashMap;
use std::marker::Model;

// ---- the N_BINCL by name and value

// The first N_BINCL of a name and value, and whether there are more.
#[derive(Clone, Copy, Debug, Drop, PartialEq, Eq)]
struct Seen {
    unit: u32,
    file: u32,
    more: bool,
}

// What is seen with one header more.
fn noted(old: Option<&Seen>, unit: u32, file: u32) -> Seen
    ensures { result ≡ more_of (option_copied old.entry) unit file }
{
    match old {
        Some(seen) => Seen {
            unit: seen.unit,
            file: seen.file,
            more: true,
        },
        None => Seen {
            unit,
            file,
            more: false,
        },
    }
}

// Notes a header, unless it is excluded.
fn note<'a>(
    seen: &mut HashMap<(&'a [u8], u32), Seen>,
    header: &'a HeaderMark,
    unit: u32,
    file: u32,
) -> Result<(), Memory>
    ensures { OnOk result ((rows : List Row) → Sees seen.old rows → Sees seen.new (rows ++ row_at unit file header.now ∷ [])) }
{
    if header.excluded {
        return Ok(());
    }
    let name = header.name.bytes();
    let next = noted(seen.get(&(name, header.value)), unit, file);
    seen.insert((name, header.value), next)?;
    Ok(())
}

// Notes the headers of a unit.
fn note_all<'a>(
    seen: &mut HashMap<(&'a [u8], u32), Seen>,
    headers: &'a [HeaderMark],
    unit: u32,
) -> Result<(), Memory>
    requires { length headers.now < 2 ^ 32 }
    ensures { OnOk result ((rows : List Row) → Sees seen.old rows → Sees seen.new (rows ++ unit_rows unit 1 headers.now)) }
{
    for at in 0..headers.len() {
        note(seen, &headers[at], unit, at as u32 + 1)?;
    }
    Ok(())
}

// Each N_BINCL by its name and value.
fn seen_headers<'a>(
    alloc: Global,
    outlines: &'a [UnitSpan],
) -> Result<HashMap<(&'a [u8], u32), Seen>, Memory>
    requires few { AreFew outlines.now }
    requires short { length outlines.now < 2 ^ 32 }
    ensures { IfOk result (λ seen. Sees seen (rows_of outlines.now)) }
{
    let mut seen = HashMap::new(alloc);
    for unit in 0..outlines.len() {
        note_all(&mut seen, outlines[unit].headers.items(), unit as u32)?;
    }
    Ok(seen)
}

// ---- owners

// The owner of a header; the outlines are those of all units.
fn owner_of(
    seen: &HashMap<(&[u8], u32), Seen>,
    _outlines: &[UnitSpan],
    header: &HeaderMark,
    unit: u32,
    file: u32,
) -> Result<Owner, Refused>
    requires { Sees seen.now (rows_of _outlines.now) }
    ensures { IsOwner (rows_of _outlines.now) (row_at unit file header.now) result }
{
    if !header.excluded {
        return Ok(Owner {
            unit,
            file,
            owner_unit: unit,
            owner_file: file,
        });
    }
    match seen.get(&(header.name.bytes(), header.value)) {
        Some(found) => {
            if found.more {
                return Err(Refused::At(Fault::at(AMBIGUOUS, header.first)));
            }
            Ok(Owner {
                unit,
                file,
                owner_unit: found.unit,
                owner_file: found.file,
            })
        }
        None => Err(Refused::At(Fault::at(NO_HEADER, header.first))),
    }
}

// The owners of a unit's headers.
fn unit_owners(
    alloc: Global,
    seen: &HashMap<(&[u8], u32), Seen>,
    outlines: &[UnitSpan],
    headers: &[HeaderMark],
    unit: u32,
) -> Result<List<Owner>, Refused>
    requires sees { Sees seen.now (rows_of outlines.now) }
    requires few { length headers.now < 2 ^ 32 }
    ensures { AreOwners (rows_of outlines.now) (unit_rows unit 1 headers.now) result }
{
    let mut owners = List::new(alloc);
    for at in 0..headers.len() {
        let owner = owner_of(seen, outlines, &headers[at], unit, at as u32 + 1)?;
        owners.push(owner)?;
    }
    Ok(owners)
}

// The owner of each header, by units.
fn owners_of(alloc: Global, outlines: &[UnitSpan]) -> Result<List<List<Owner>>, Refused>
    requires few { AreFew outlines.now }
    requires short { length outlines.now < 2 ^ 32 }
    ensures { AreAllOwners outlines.now result }
{
    let seen = seen_headers(alloc, outlines)?;
    let mut all = List::new(alloc);
    for unit in 0..outlines.len() {
        let owners = unit_owners(
            alloc,
            &seen,
            outlines,
            outlines[unit].headers.items(),
            unit as u32,
        )?;
        all.push(owners)?;
    }
    Ok(all)
}

// ---- the index

/// Where the units of an image stand, and for each of their headers the header that opens its range.
#[derive(Debug, Drop)]
pub struct Index {
    outlines: List<UnitSpan>,
    /// The owners of the headers of each unit, in order.
    owners: List<List<Owner>>,
}

impl Model for Index {
    ghost use Rattle.unit_index.specs.Indexes.{Indexed, AreInPlace, AsMany};

    ghost Value = { Indexed };

    ghost view = { λ index. record { outlines = index.outlines; owners = index.owners } };

    ghost invariant = { λ index. AreInPlace 0 index.owners × AsMany index.outlines index.owners };
}

impl Index {
    /// The index of the entries of an image, where text ends at `text_end`. No string is read.
    ///
    /// Refused as `outline` refuses an image; else with the fault of the first N_EXCL that stands for no header or for more than one,
    /// `NO_HEADER` where no N_BINCL has its name and value, `AMBIGUOUS` where two or more have. The place is the number of the
    /// N_EXCL, and within is 0. Takes memory for the outlines and owners; out of memory is its own answer. After "The stabs debug
    /// format"; the faults are this project's own.
    pub fn build(alloc: Global, entries: &List<Named>, text_end: u32) -> Result<Index, Refused>
        requires { length entries.now < 2 ^ 32 }
        ensures found { IfOk result (IsIndex text_end entries.now) }
        ensures refused { (f : SomeFault) → result ≡ Err (Refused.At f) → IndexFault text_end entries.now (Some f) }
    {
        match outline(alloc, entries, text_end, Marks::Image) {
            Ok(outlines) => match owners_of(alloc, outlines.items()) {
                Ok(owners) => Ok(Index { outlines, owners }),
                Err(refusal) => Err(refusal),
            },
            Err(refusal) => Err(refusal),
        }
    }

    /// Where the units stand, in order.
    pub fn outlines(&self) -> &List<UnitSpan>
        ensures { result.now ≡ self.now.outlines }
    {
        &self.outlines
    }

    /// The owners of the headers of each unit, in order.
    pub fn owners(&self) -> &List<List<Owner>>
        ensures { result.now ≡ self.now.owners }
    {
        &self.owners
    }

    /// The header that opens the range for which a header stands; `None` exactly where the unit has no such header. Units are counted
    /// from 0, headers from 1. Takes no memory.
    pub fn stands_for(&self, unit: u32, file: u32) -> Option<HeaderAt>
        ensures opener { result ≡ option_map opener (stands_for (all_owners self.now.owners) unit file) }
        ensures none { IsNone result ↔ (HasHeader self.now.outlines unit file → ⊥) }
    {
        opener_among(&self.owners, unit, file)
    }
}

fn opener_of(owner: Option<&Owner>) -> Option<HeaderAt>
    ensures { result ≡ option_map opener (option_copied owner.entry) }
{
    match owner {
        Some(owner) => Some(HeaderAt {
            unit: owner.owner_unit,
            file: owner.owner_file,
        }),
        None => None,
    }
}

// The header that opens the range for which a header stands, where these are the owners of all units.
fn opener_among(all: &List<List<Owner>>, unit: u32, file: u32) -> Option<HeaderAt>
    requires { AreInPlace 0 all.now }
    ensures { result ≡ option_map opener (stands_for (all_owners all.now) unit file) }
{
    match all.get(unit as usize) {
        Some(owners) => {
            if file == 0 {
                None
            } else {
                opener_of(owners.get(file as usize - 1))
            }
        }
        None => None,
    }
}
