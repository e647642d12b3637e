//! `as ORDER IN OUT`: the file of the object that a source is assembled to is stored.

ghost use Rattle.std.specs.Prelude.{◌≡◌, IfOk};
ghost use Rattle.aout_object.specs.Objects.{file_of};
ghost use Rattle.asm_statements.specs.SourceLines.{read_source};
ghost use Rattle.stabs_asm.specs.Assembling.{assembled};
ghost use Rattle.file_commands.specs.Outcomes as outcomes;
ghost use Rattle.file_commands.specs.QueryOutcomes.{kept_object};

use crate::outcome::{Outcome, kept, refused_or_limit};
use aout_object::{Object, encode};
use st_base::{Memory, Order, Refused, Text};
use stabs_asm::assemble;
use std::alloc::Global;

/// The file of an object is to be stored; the object is let go.
fn keep_object(alloc: Global, out: &[u8], object: Object) -> Result<Outcome, Memory>
    ensures { IfOk result (λ o. o ≡ outcomes.kept out.now (file_of object)) }
{
    let file = encode(alloc, &object)?;
    kept(alloc, out, file)
}

/// The file of an assembled source is to be stored.
pub(crate) fn assemble_source(
    alloc: Global,
    order: Order,
    name: &[u8],
    out: &[u8],
    source: Text,
) -> Result<Outcome, Memory>
    ensures { IfOk result (λ o. o ≡ kept_object name.now out.now (assembled order (read_source source))) }
{
    match assemble(alloc, source.bytes(), order) {
        Ok(object) => keep_object(alloc, out, object),
        Err(Refused::At(fault)) => refused_or_limit(alloc, name, fault),
        Err(Refused::Memory) => Err(Memory),
    }
}
