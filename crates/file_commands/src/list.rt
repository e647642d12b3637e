//! `list FILE`: the assembly of the object that a file spells.

ghost use Rattle.std.specs.Prelude.{IfOk};
ghost use Rattle.file_commands.specs.QueryOutcomes.{Lists, OnObject};

use crate::objects::object_of;
use crate::outcome::{DONE, Outcome, printed};
use aout_object::Object;
use st_base::{Memory, Text};
use stabs_asm::list;
use std::alloc::Global;

fn list_object(alloc: Global, object: &Object) -> Result<Outcome, Memory>
    ensures { IfOk result (Lists object.now) }
{
    Ok(printed(DONE, list(alloc, object)?))
}

/// The assembly of the bytes of a file.
#[tactic(auto, using(crate::proofs::ReplyLemmas::by_object, crate::proofs::ReplyLemmas::by_refusal))]
pub(crate) fn list_file(alloc: Global, name: &[u8], bytes: Text) -> Result<Outcome, Memory>
    ensures { IfOk result (OnObject name.now bytes Lists) }
{
    match object_of(alloc, name, bytes)? {
        Ok(object) => list_object(alloc, &object),
        Err(outcome) => Ok(outcome),
    }
}
