ghost use Rattle.std.specs.Prelude.{◌≡◌, ◌+◌, ◌<◌, ◌^◌, length, Err, IfOk};
ghost use Rattle.st_base.specs.declared.fault.Fault.{Fault};
ghost use Rattle.st_base.specs.declared.fault.Refused.{Refused};
ghost use Rattle.aout_object.specs.Objects.{named_of};
ghost use Rattle.stab_units.specs.ObjectUnits.{UnitsFault, UnitsFaultAfter, strings_in};
ghost use Rattle.bincl_match.specs.Ranges.{AreFound};
ghost use Rattle.aout_link.specs.Sources.{IsLawful, HasUnits, text_end};

use aout_object::{Object, Parts};
use bincl_match::{Found, find_ranges};
use nlist_codec::Named;
use st_base::{List, Memory, Refused, Steps};
use std::alloc::Global;
use std::marker::Model;
use std::sync::ledger::Ledger;

/// An object to be linked, whose entries have units, with the list of its entries and their names and with its header ranges. Both are
/// made once; linking parses no string of the object again.
#[derive(Debug, Drop)]
pub struct Checked {
    object: Object,
    named: List<Named>,
    ranges: Found,
}

impl Model for Checked {
    ghost use Rattle.aout_object.specs.Objects.{named_of};
    ghost use Rattle.bincl_match.specs.Ranges.{AreFound};
    ghost use Rattle.aout_link.specs.Sources.{Source, IsLawful, text_end};
    ghost use Rattle.std.specs.Prelude.{◌≡◌};

    ghost Value = { Source };

    ghost view = { λ s. record { object = s.object; parts = s.object.parts; named = s.named } };

    ghost invariant = { λ s. (s.named ≡ named_of s.object) × IsLawful (record { object = s.object; parts = s.object.parts; named = s.named })
        × AreFound (text_end (record { object = s.object; parts = s.object.parts; named = s.named })) s.named s.ranges };
}

// The entries of an object with their names. That an object has fewer than 2^32 of them is said by its parts.
fn entries_of(alloc: Global, object: &Object) -> Result<List<Named>, Memory>
    ensures value { IfOk result (λ named. named ≡ named_of object.now) }
    ensures lawful { IfOk result (λ named. IsLawful (record { object = object.now; parts = object.now.parts; named = named })) }
    ensures few { IfOk result (λ named. length named < 2 ^ 32) }
{
    let named = object.named(alloc)?;
    let _lawful = object.parts();
    Ok(named)
}

impl Checked {
    /// The object with its entries named, whose entries have units, and with its header ranges, as `find_ranges` finds them.
    ///
    /// Refused with the fault of the outline of its entries, else with the fault of the first string that spells no symbol, as by
    /// `units`; the object is dropped then. Each string is parsed once here, which takes a step, and linking parses no string again; where
    /// a string is refused, a step was taken for each up to and with it, and none where the outline is. What is kept is the entries with
    /// their names and the ranges: of each symbol of a header its shape, which is about as long as its string, and the files of its pairs.
    /// Takes memory for these, and for one unit at a time while it is read; out of memory is an answer of its own. After "The stabs debug
    /// format".
    pub fn of<L: Ledger>(
        alloc: Global,
        object: Object,
        steps: &mut Steps<L>,
    ) -> Result<Checked, Refused>
        ensures object { IfOk result (λ s. s.object ≡ object) }
        ensures parts { IfOk result (λ s. s.parts ≡ object.parts) }
        ensures named { IfOk result (λ s. s.named ≡ named_of object) }
        ensures units { IfOk result HasUnits }
        ensures refused { (f : Fault) → result ≡ Err (Refused.At f) → UnitsFault (object.parts.entry + length object.parts.text) (named_of object) f }
        ensures stopped { (f : Fault) → result ≡ Err (Refused.At f) → UnitsFaultAfter (object.parts.entry + length object.parts.text) (named_of object) f steps.old steps.new }
        ensures ticks { IfOk result (λ s. steps.new ≡ steps.old + strings_in (object.parts.entry + length object.parts.text) (named_of object)) }
    {
        let Ok(named) = entries_of(alloc, &object) else {
            return Err(Refused::Memory);
        };
        match find_ranges(alloc, &named, object.text_end(), steps) {
            Ok(ranges) => Ok(Checked {
                object,
                named,
                ranges,
            }),
            Err(why) => Err(why),
        }
    }

    /// The object that was given.
    pub fn object(&self) -> &Object
        ensures given { result.now ≡ self.now.object }
        ensures parts { result.now.parts ≡ self.now.parts }
        ensures named { named_of result.now ≡ self.now.named }
    {
        &self.object
    }

    /// The entries of the symbol table in order, each with its name.
    pub fn named(&self) -> &List<Named>
        ensures { result.now ≡ self.now.named }
    {
        &self.named
    }

    /// The header ranges of the object, as they were found when it was checked: unit by unit, and in a unit by the numbers of the files.
    /// Each is a candidate as far as its own entries go, whatever other ranges are like it. Takes no memory.
    pub fn ranges(&self) -> &Found
        ensures { AreFound (text_end self.now) self.now.named result.now }
    {
        &self.ranges
    }

    /// The segments of the object and their relocations.
    pub fn parts(&self) -> &Parts
        ensures value { result.now ≡ self.now.parts }
        ensures lawful { IsLawful self.now }
        ensures units { HasUnits self.now }
    {
        let _named = &self.named;
        let _ranges = &self.ranges;
        self.object.parts()
    }
}
