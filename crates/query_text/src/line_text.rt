//! The replies on lines.

ghost use Rattle.std.specs.Prelude.{◌≡◌, ◌++◌, IfOk, OnOk};
ghost use Rattle.scope_lines.specs.Lines.{name_or};
ghost use Rattle.query_text.specs.LineText as spec;

use crate::scope_text::item_name;
use scope_lines::{AddressOf, LineAt};
use st_base::{Memory, Text, put_hex8, put_number, show};
use stab_units::{Item, Unit};
use std::alloc::Global;

// The name of the file of a line: that of the item at a place of the unit's body, or the unit's.
fn file_of(unit: &Unit, place: Option<u64>) -> &[u8]
    ensures { result.now ≡ name_or unit.now.name unit.now.body place }
{
    match place {
        Some(place) => match unit.body.get(place as usize) {
            Some(item) => item_name(item),
            None => unit.name.bytes(),
        },
        None => unit.name.bytes(),
    }
}

/// `FILE LINE ADDRESS`.
#[tactic(auto, unfolding(crate::specs::LineText::line_line))]
fn put_line(file: &[u8], item: &Item, out: &mut Text) -> Result<(), Memory>
    ensures { OnOk result (out.new ≡ out.old ++ spec.line_line file.now item.now) }
{
    show(out, file)?;
    out.push(b' ')?;
    put_number(u64::from(item.desc), out)?;
    out.push(b' ')?;
    put_hex8(item.value, out)?;
    out.push(b'\n')
}

/// The line that was found in a unit.
pub fn line_text(alloc: Global, unit: &Unit, found: LineAt) -> Result<Text, Memory>
    ensures { IfOk result (λ text. text ≡ spec.line_text unit.now found) }
{
    let mut text = Text::new(alloc);
    if let Some(item) = unit.body.get(found.item as usize) {
        put_line(file_of(unit, found.file_item), item, &mut text)?;
    }
    Ok(text)
}

/// `U ADDRESS`.
#[tactic(auto, unfolding(crate::specs::LineText::address_line))]
fn put_address(found: AddressOf, out: &mut Text) -> Result<(), Memory>
    ensures { OnOk result (out.new ≡ out.old ++ spec.address_line found) }
{
    put_number(u64::from(found.unit), out)?;
    out.push(b' ')?;
    put_hex8(found.value, out)?;
    out.push(b'\n')
}

/// The addresses that were found, in order.
pub fn addresses_text(alloc: Global, found: &[AddressOf]) -> Result<Text, Memory>
    ensures { IfOk result (λ text. text ≡ spec.addresses_text found.now) }
{
    let mut text = Text::new(alloc);
    for address in found {
        put_address(*address, &mut text)?;
    }
    Ok(text)
}
