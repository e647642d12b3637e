ghost use Rattle.std.specs.Prelude.{◌≡◌, ◌++◌, ◌&&◌, ◌<◌, ◌^◌, length, IfOk, OnOk};
ghost use Rattle.scope_lines.specs.Lines as spec;
ghost use Rattle.scope_lines.specs.Walks.{next_here};

use crate::scope::AddressOf;
use st_base::{List, Memory};
use stab_codes::{N_SLINE, N_SOL};
use stab_units::{Item, ItemText, Unit};
use std::alloc::Global;
use type_graph::World;

/// The name that an item carries. Takes no memory.
fn text_of(item: &Item) -> &[u8]
    ensures { result.now ≡ spec.text_of item.now }
{
    match &item.text {
        ItemText::Symbol(symbol) => symbol.name.bytes(),
        ItemText::Raw(text) => text.bytes(),
    }
}

/// Whether an item is an entry of this line; `here` says that its file is the one sought.
fn counts(item: &Item, line: u16, here: bool) -> bool
    ensures { result ≡ spec.is_line_of line item.now && here }
{
    item.kind == N_SLINE && item.desc == line && here
}

/// Whether the file is the one sought, after this item.
fn next_here(item: &Item, file: &[u8], here: bool) -> bool
    ensures { result ≡ next_here file.now item.now here }
{
    if item.kind == N_SOL {
        text_of(item) == file
    } else {
        here
    }
}

/// Appends an address where it counts.
fn put_address(counts: bool, unit: u32, value: u32, out: &mut List<AddressOf>) -> Result<(), Memory>
    ensures { OnOk result (out.new ≡ out.old ++ spec.address_if counts unit value) }
{
    if counts {
        out.push(AddressOf { unit, value })?;
    }
    Ok(())
}

/// Appends the addresses that the line of the file has in the unit of this number.
fn put_addresses(
    number: u32,
    unit: &Unit,
    file: &[u8],
    line: u16,
    out: &mut List<AddressOf>,
) -> Result<(), Memory>
    ensures { OnOk result (out.new ≡ out.old ++ spec.addresses_in file.now line number unit.now) }
{
    let mut here = unit.name.bytes() == file;
    let body = unit.body.items();
    for item in body {
        put_address(counts(item, line, here), number, item.value, out)?;
        here = next_here(item, file, here);
    }
    Ok(())
}

/// The addresses of a line of a file: the values of every N_SLINE whose desc is the line and whose file is this one, by units and items
/// in order. The file of an N_SLINE is the name of the last N_SOL before it in its unit, else the unit's name; names are compared as raw
/// bytes.
///
/// One walk over each body; the memory taken is that of the answer. After "The stabs debug format" on line numbers.
pub fn addresses(
    alloc: Global,
    world: &World,
    file: &[u8],
    line: u16,
) -> Result<List<AddressOf>, Memory>
    requires { length world.now.units < 2 ^ 32 }
    ensures { IfOk result (λ found. found ≡ spec.addresses world.now file.now line) }
{
    let mut found = List::new(alloc);
    let units = world.units.items();
    for (number, unit) in units.iter().enumerate() {
        put_addresses(number as u32, unit, file, line, &mut found)?;
    }
    Ok(found)
}
