ghost use Rattle.aout_object.specs.Decoding.{Gives};
ghost use Rattle.asm_statements.specs.SourceLines as lines;
ghost use Rattle.stabs_asm.specs.Assembling.{assembled};

use aout_object::Object;
use asm_objects::assemble_statements;
use asm_statements::read_source;
use st_base::{Order, Refused};
use std::alloc::Global;

/// Assembles a source to an object of this byte order.
///
/// Refused with `LINE_SYNTAX` at the first line that does not parse. Where all lines parse, refused at the first fault of a statement by
/// line and number: `LINE_RANGE`, `LINE_UNDEFINED`, `LINE_TWICE` or `LINE_MIXED`; the place is the line, counted from 1. Where no
/// statement has one, refused as making an object is: `TOO_LARGE` with place 4,294,967,295 where the end of bss passes that address,
/// and with place 134,217,728 where the file would have more bytes. Nothing of an object's segments is made before both limits are
/// known to allow it. Takes memory for the statements, the names and the object; out of memory is an answer of its own.
pub fn assemble(alloc: Global, source: &[u8], order: Order) -> Result<Object, Refused>
    ensures { Gives result (assembled order (lines.read_source source.now)) }
{
    match read_source(alloc, source) {
        Ok(statements) => assemble_statements(alloc, statements, order),
        Err(Refused::At(fault)) => Err(Refused::At(fault)),
        Err(Refused::Memory) => Err(Refused::Memory),
    }
}
