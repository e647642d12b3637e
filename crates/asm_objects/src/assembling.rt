ghost use Rattle.std.specs.Prelude.{◌≡◌, length, IfOk};
ghost use Rattle.aout_object.specs.Decoding.{Gives};
ghost use Rattle.asm_objects.specs.Emitting.{Left, Passed, TableFits, Within};
ghost use Rattle.asm_objects.specs.Layout.{start, table_of};
ghost use Rattle.asm_objects.specs.SourceMaking.{entries_by, object_of, parts_by};

use crate::check::first_fault;
use crate::making::{Made, check_limits, emit};
use crate::table::{Table, lay_out};
use crate::undefined::undefined_names;
use crate::words::Words;
use aout_object::Object;
use asm_statements::Statements;
use st_base::{Memory, Order, Refused};
use std::alloc::Global;

// What statements without a fault make. They and what was found of them are dropped before an object is made of it.
fn emit_last(
    alloc: Global,
    table: Table,
    undefined: Words,
    statements: Statements,
    order: Order,
) -> Result<Made, Memory>
    requires table { TableFits table }
    requires within { Within table (length undefined) }
    requires left { Left table start statements }
    ensures parts { IfOk result (λ m. m.parts ≡ parts_by order table undefined statements) }
    ensures named { IfOk result (λ m. m.named ≡ entries_by table undefined statements) }
{
    emit(alloc, order, &table, &undefined, statements)
}

// The object of statements without a fault whose limits hold.
fn make_within(
    alloc: Global,
    table: Table,
    undefined: Words,
    statements: Statements,
    order: Order,
) -> Result<Object, Refused>
    requires table { TableFits table }
    requires passed { Passed statements table undefined }
    requires within { Within table (length undefined) }
    ensures { Gives result (object_of order statements) }
{
    let Made { parts, named } = emit_last(alloc, table, undefined, statements, order)?;
    Object::make(alloc, parts, &named)
}

// The object of statements without a fault. The limits are checked before anything is made, so that the zeros of `.space` beyond
// them never are.
fn make_object(
    alloc: Global,
    table: Table,
    statements: Statements,
    order: Order,
) -> Result<Object, Refused>
    requires fits { TableFits table }
    requires table { table ≡ table_of statements }
    requires left { Left table start statements }
    ensures { Gives result (object_of order statements) }
{
    let undefined = undefined_names(alloc, &table, statements.items())?;
    check_limits(&table, undefined.len())?;
    make_within(alloc, table, undefined, statements, order)
}

/// The object of this byte order that statements make, or their first fault.
///
/// Refused at the first fault of a statement by line and number: `LINE_RANGE`, `LINE_UNDEFINED`, `LINE_TWICE` or `LINE_MIXED`; the
/// place is the line, counted from 1. Where no statement has one, refused as making an object is: `TOO_LARGE` with place 4,294,967,295
/// where the end of bss passes that address, and with place 134,217,728 where the file would have more bytes. Takes memory for the
/// names and the object; out of memory is an answer of its own.
pub fn assemble_statements(
    alloc: Global,
    statements: Statements,
    order: Order,
) -> Result<Object, Refused>
    ensures { Gives result (object_of order statements) }
{
    let table = lay_out(alloc, statements.items())?;
    match first_fault(&table, statements.items()) {
        Some(fault) => Err(Refused::At(fault)),
        None => make_object(alloc, table, statements, order),
    }
}
