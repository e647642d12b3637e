//! What several inputs come to: their objects in order, and these as sources of a link; or the first input that has a fault.

ghost use Rattle.std.specs.Prelude.{◌≡◌, Err, IfOk};
ghost use Rattle.st_base.specs.declared.fault.Fault.{Fault as FaultValue};
ghost use Rattle.file_commands.specs.InputObjects.{ComesTo, Spells, SpellsNone, IsSource, HasNoUnits};
ghost use Rattle.file_commands.specs.QueryOutcomes.{IsObjectOf};

use crate::outcome::{Outcome, refused};
use aout_link::Checked;
use aout_object::{Object, decode};
use st_base::{Fault, List, Memory, Refused, Steps, Text};
use std::alloc::Global;
use std::marker::Brand;
use std::sync::ledger::{Blank, Ledger};

/// The first input that has a fault, and the fault.
#[derive(Clone, Copy, Debug, Drop, PartialEq, Eq)]
pub(crate) struct Misfit {
    /// The place of the input among the inputs of its command, counted from 0.
    pub(crate) place: usize,
    pub(crate) fault: Fault,
}

/// The object that the bytes of a file spell.
fn read_object(alloc: Global, bytes: &[u8]) -> Result<Object, Refused>
    ensures found { IfOk result (Spells bytes.now) }
    ensures refused { (f : FaultValue) → result ≡ Err (Refused.At f) → SpellsNone bytes.now f }
{
    match decode(alloc, bytes) {
        Ok(object) => Ok(object),
        Err(why) => Err(why),
    }
}

/// The object that the bytes of a file spell, or the refusal of the file. The bytes are let go.
pub(crate) fn object_of(
    alloc: Global,
    name: &[u8],
    bytes: Text,
) -> Result<Result<Object, Outcome>, Memory>
    ensures { IfOk result (IsObjectOf name.now bytes) }
{
    match read_object(alloc, bytes.bytes()) {
        Ok(object) => Ok(Ok(object)),
        Err(Refused::At(fault)) => Ok(Err(refused(alloc, name, fault)?)),
        Err(Refused::Memory) => Err(Memory),
    }
}

/// The objects that texts of files spell, in order, or the first of them that spells none. Each text is let go once it is read.
pub(crate) fn read_objects(
    alloc: Global,
    texts: List<Text>,
) -> Result<Result<List<Object>, Misfit>, Memory>
    ensures { IfOk result (ComesTo Spells SpellsNone texts) }
{
    let mut objects = List::new(alloc);
    for text in texts.into_vec() {
        match read_object(alloc, text.bytes()) {
            Ok(object) => objects.push(object)?,
            Err(Refused::At(fault)) => {
                return Ok(Err(Misfit {
                    place: objects.len(),
                    fault,
                }));
            }
            Err(Refused::Memory) => return Err(Memory),
        }
    }
    Ok(Ok(objects))
}

fn check_counted<L: Ledger>(
    alloc: Global,
    objects: List<Object>,
    blank: Blank,
) -> Result<Result<List<Checked>, Misfit>, Memory>
    requires name { blank.name ≡ L.name }
    requires parts { blank.parts ≡ L.parts }
    requires whole { blank.parts ≡ 1 }
    ensures { IfOk result (ComesTo IsSource HasNoUnits objects) }
{
    let mut steps = Steps::<L>::new(blank);
    let mut sources = List::new(alloc);
    for object in objects.into_vec() {
        match Checked::of(alloc, object, &mut steps) {
            Ok(source) => sources.push(source)?,
            Err(Refused::At(fault)) => {
                return Ok(Err(Misfit {
                    place: sources.len(),
                    fault,
                }));
            }
            Err(Refused::Memory) => return Err(Memory),
        }
    }
    Ok(Ok(sources))
}

/// Objects as sources of a link, in order, or the first of them whose entries have no units.
pub(crate) fn check_objects(
    alloc: Global,
    objects: List<Object>,
) -> Result<Result<List<Checked>, Misfit>, Memory>
    ensures { IfOk result (ComesTo IsSource HasNoUnits objects) }
{
    check_counted::<Brand>(alloc, objects, Blank::new(1))
}
