//! `query FILE QUERY...`: the reply on the world of the object that a file spells.

ghost use Rattle.std.specs.Prelude.{◌<◌, ◌^◌, length, IfOk};
ghost use Rattle.file_commands.specs.QueryOutcomes.{RepliesOnWorld, RepliesOnObject, OnObject};

use crate::objects::object_of;
use crate::outcome::{DONE, Outcome, printed, refused};
use crate::reading::read_world;
use aout_object::Object;
use query_text::{Query, reply_text};
use st_base::{Memory, Refused, Text};
use std::alloc::Global;
use type_graph::World;

/// The reply on a world.
fn on_world(alloc: Global, query: &Query, world: &World) -> Result<Outcome, Memory>
    requires { length world.now.units < 2 ^ 32 }
    ensures { IfOk result (RepliesOnWorld query.now world.now) }
{
    let text = reply_text(alloc, world, query)?;
    Ok(printed(DONE, text))
}

/// The reply on an object, which is let go once its entries are read.
fn on_object(alloc: Global, name: &[u8], query: &Query, object: Object) -> Result<Outcome, Memory>
    ensures { IfOk result (RepliesOnObject name.now query.now object) }
{
    match read_world(alloc, object) {
        Ok(world) => on_world(alloc, query, &world),
        Err(Refused::At(fault)) => refused(alloc, name, fault),
        Err(Refused::Memory) => Err(Memory),
    }
}

/// The reply on the bytes of a file.
#[tactic(auto, using(crate::proofs::ReplyLemmas::by_object, crate::proofs::ReplyLemmas::by_refusal))]
pub(crate) fn query_file(
    alloc: Global,
    name: &[u8],
    query: &Query,
    bytes: Text,
) -> Result<Outcome, Memory>
    ensures { IfOk result (OnObject name.now bytes (RepliesOnObject name.now query.now)) }
{
    match object_of(alloc, name, bytes)? {
        Ok(object) => on_object(alloc, name, query, object),
        Err(outcome) => Ok(outcome),
    }
}
