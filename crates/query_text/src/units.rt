//! The replies on units and on the files of a unit.

ghost use Rattle.std.specs.Prelude.{◌≡◌, ◌++◌, IfOk, OnOk};
ghost use Rattle.query_text.specs.UnitLines as spec;

use st_base::{Memory, Text, put_hex8, put_number, show};
use stab_units::{HeaderFile, Unit};
use std::alloc::Global;

/// `U START END NAME` of the unit with this number.
#[tactic(auto, unfolding(crate::specs::UnitLines::unit_line))]
fn put_unit(number: usize, unit: &Unit, out: &mut Text) -> Result<(), Memory>
    ensures { OnOk result (out.new ≡ out.old ++ spec.unit_line number unit.now) }
{
    put_number(number as u64, out)?;
    out.push(b' ')?;
    put_hex8(unit.start, out)?;
    out.push(b' ')?;
    put_hex8(unit.end, out)?;
    out.push(b' ')?;
    show(out, unit.name.bytes())?;
    out.push(b'\n')
}

/// The lines of all units in order.
pub fn units_text(alloc: Global, units: &[Unit]) -> Result<Text, Memory>
    ensures { IfOk result (λ text. text ≡ spec.units_text units.now) }
{
    let mut text = Text::new(alloc);
    for (number, unit) in units.iter().enumerate() {
        put_unit(number, unit, &mut text)?;
    }
    Ok(text)
}

/// `F NAME` of the file with this number.
#[tactic(auto, unfolding(crate::specs::UnitLines::file_line))]
fn put_file(number: usize, file: &HeaderFile, out: &mut Text) -> Result<(), Memory>
    ensures { OnOk result (out.new ≡ out.old ++ spec.file_line number file.now) }
{
    put_number(number as u64, out)?;
    out.push(b' ')?;
    show(out, file.name.bytes())?;
    out.push(b'\n')
}

/// The lines of the files of a unit in order.
pub fn files_text(alloc: Global, files: &[HeaderFile]) -> Result<Text, Memory>
    ensures { IfOk result (λ text. text ≡ spec.files_text files.now) }
{
    let mut text = Text::new(alloc);
    for (number, file) in files.iter().enumerate() {
        put_file(number, file, &mut text)?;
    }
    Ok(text)
}
