ghost use Rattle.std.specs.Prelude.{◌≡◌, IfOk, OnOk, fold};
ghost use Rattle.asm_objects.specs.Meaning as spec;
ghost use Rattle.std.specs.Str.{bytes_eq};
ghost use Rattle.st_base.specs.FirstUses.{used};

use crate::table::Table;
use crate::words::Words;
use asm_statements::{Name, Statement, What};
use st_base::Memory;
use std::alloc::Global;

// The one name that a field has, where nothing is subtracted and the name has no definition.
fn note_outer(
    words: &mut Words,
    table: &Table,
    added: &[Name],
    taken: &[Name],
) -> Result<(), Memory>
    ensures { OnOk result (words.new ≡ fold (used bytes_eq) words.old (spec.outer_of table.now added.now taken.now)) }
{
    match added {
        [] => Ok(()),
        [Name::Named(name)] => match taken {
            [] => {
                if table.names.get(name.bytes()).is_none() {
                    words.add(name.bytes())
                } else {
                    Ok(())
                }
            }
            [_, ..] => Ok(()),
        },
        [_, ..] => Ok(()),
    }
}

fn note_undefined(words: &mut Words, table: &Table, what: &What) -> Result<(), Memory>
    ensures { OnOk result (words.new ≡ fold (used bytes_eq) words.old (spec.outer table.now what.now)) }
{
    match what {
        What::Field(_, sum) => note_outer(words, table, sum.added(), sum.taken()),
        _ => Ok(()),
    }
}

/// The names that are used in data fields and not defined, in order of first use.
pub(crate) fn undefined_names(
    alloc: Global,
    table: &Table,
    statements: &[Statement],
) -> Result<Words, Memory>
    ensures { IfOk result (λ w. w ≡ spec.undefined_of table.now statements.now) }
{
    let mut words = Words::new(alloc);
    for statement in statements {
        note_undefined(&mut words, table, &statement.what)?;
    }
    Ok(words)
}
