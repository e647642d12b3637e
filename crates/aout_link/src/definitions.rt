ghost use Rattle.std.specs.Prelude.{◌≡◌, ◌++◌, ◌∷◌, [], List, length, true, not, is_some, IfOk};
ghost use Rattle.nlist_codec.specs.declared.named.Named.{Named as NamedEntry};
ghost use Rattle.aout_link.specs.NameTables as spec;
ghost use Rattle.aout_link.specs.NameTables.{known_by};
ghost use Rattle.aout_link.specs.Answering.{listed, Tells, Defines, FindsAll};

use crate::checked::Checked;
use crate::moves::Moves;
use crate::refusals::fault_in;
use indexmap::IndexMap;
use nlist_codec::{Named, defines_name};
use st_base::{Memory, Refused, TWICE};
use stab_codes::{Segment, segment_of};
use std::alloc::Global;

/// What a name stands for in the image: the kind and value that an entry of kind 1 takes.
#[derive(Clone, Copy, Debug, Drop, PartialEq, Eq)]
pub struct Known {
    pub kind: u8,
    pub value: u32,
}

// How far what moves with a segment moves.
fn move_with(moves: &Moves, segment: Segment) -> u32
    ensures { result ≡ spec.move_with moves.now segment }
{
    match segment {
        Segment::Still => 0,
        Segment::Text => moves.text,
        Segment::Datum => moves.datum,
        Segment::Bss => moves.bss,
    }
}

/// The value of an entry, moved with its segment.
pub fn moved_value(moves: &Moves, entry: &Named) -> u32
    ensures { result ≡ spec.moved_value moves.now entry.now }
{
    entry
        .value
        .wrapping_add(move_with(moves, segment_of(entry.kind)))
}

/// What a name stands for.
pub fn find(table: &IndexMap<&[u8], Known>, name: &[u8]) -> Option<Known>
    ensures { result ≡ known_by name.now (listed table.now.entries) }
{
    table.get(name).copied()
}

/// Notes what a name stands for; false where it stood for something.
pub fn define<'a>(
    table: &mut IndexMap<&'a [u8], Known>,
    name: &'a [u8],
    known: Known,
) -> Result<bool, Memory>
    ensures fresh { IfOk result (λ fresh. fresh ≡ not (is_some (known_by name.now (listed table.old.entries)))) }
    ensures noted { IfOk result (λ fresh. fresh ≡ true → listed table.new.entries ≡ listed table.old.entries ++ (name.now, known) ∷ []) }
{
    match table.insert(name, known) {
        Ok(None) => Ok(true),
        Ok(Some(_)) => Ok(false),
        Err(_) => Err(Memory),
    }
}

// Notes the definitions among the entries of one object, up to the first that defines its name again.
fn define_all<'a>(
    table: &mut IndexMap<&'a [u8], Known>,
    named: &'a [Named],
    moves: &Moves,
    object: usize,
) -> Result<(), Refused>
    ensures { (before : List NamedEntry) → Tells before (listed table.old.entries)
        → Defines before object moves.now named.now result (listed table.old.entries) (listed table.new.entries) }
{
    for (at, entry) in named.iter().enumerate() {
        if !defines_name(entry.kind) {
            continue;
        }
        let known = Known {
            kind: entry.kind,
            value: moved_value(moves, entry),
        };
        let fresh = define(table, entry.name.bytes(), known)?;
        if !fresh {
            return Err(Refused::At(fault_in(TWICE, object, at)));
        }
    }
    Ok(())
}

/// The definitions of all objects in order, each moved as its object does. Refused with `TWICE` at the first entry that defines a name
/// again: the place is the object's number, within the entry's. Out of memory is an answer of its own.
pub fn find_definitions<'a>(
    alloc: Global,
    objects: &'a [Checked],
    moves: &[Moves],
) -> Result<IndexMap<&'a [u8], Known>, Refused>
    requires { length moves.now ≡ length objects.now }
    ensures { FindsAll moves.now objects.now result }
{
    let mut table = IndexMap::new(alloc);
    for (at, object) in objects.iter().enumerate() {
        if let Err(why) = define_all(&mut table, object.named().items(), &moves[at], at) {
            return Err(why);
        }
    }
    Ok(table)
}
