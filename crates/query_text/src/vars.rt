//! The lines of items of a scope.

ghost use Rattle.std.specs.Prelude.{◌≡◌, ◌++◌, OnOk};
ghost use Rattle.std.specs.Option.{option_copied};
ghost use Rattle.stab_symbols.specs.SymbolSpelling.{letters};
ghost use Rattle.query_text.specs.Externals.{look};
ghost use Rattle.query_text.specs.Vars as spec;

use st_base::{List, Memory, Text, put_hex8, show};
use stab_grammar::{Descriptor, Symbol, letters_of, print_type};
use stab_units::{Item, ItemText};
use std::alloc::Global;
use std::collections::BTreeMap;

fn put_letters(descriptor: Descriptor, out: &mut Text) -> Result<(), Memory>
    ensures { OnOk result (out.new ≡ out.old ++ spec.or_dash (letters descriptor)) }
{
    match letters_of(descriptor) {
        [] => out.push(b'-'),
        letters => out.extend(letters),
    }
}

fn is_global(descriptor: Descriptor) -> bool
    ensures { result ≡ spec.is_global descriptor }
{
    matches!(descriptor, Descriptor::Global)
}

fn put_hex8_or(known: Option<&u32>, out: &mut Text) -> Result<(), Memory>
    ensures { OnOk result (out.new ≡ out.old ++ spec.hex8_or (option_copied known.entry)) }
{
    match known {
        Some(value) => put_hex8(*value, out),
        None => out.push(b'-'),
    }
}

/// `VALUE` of a symbol.
fn put_value(
    values: &BTreeMap<&[u8], u32>,
    symbol: &Symbol,
    value: u32,
    out: &mut Text,
) -> Result<(), Memory>
    ensures { OnOk result (out.new ≡ out.old ++ spec.value_text (look values.now) symbol.now value) }
{
    if is_global(symbol.descriptor) {
        put_hex8_or(values.get(symbol.name.bytes()), out)
    } else {
        put_hex8(value, out)
    }
}

/// `var D NAME TYPE VALUE`.
#[tactic(auto, unfolding(crate::specs::Vars::var_line))]
fn put_var(
    alloc: Global,
    values: &BTreeMap<&[u8], u32>,
    symbol: &Symbol,
    value: u32,
    out: &mut Text,
) -> Result<(), Memory>
    ensures { OnOk result (out.new ≡ out.old ++ spec.var_line (look values.now) symbol.now value) }
{
    let mut spelled = Text::new(alloc);
    print_type(&symbol.tree, &mut spelled)?;
    out.extend(b"var ")?;
    put_letters(symbol.descriptor, out)?;
    out.push(b' ')?;
    show(out, symbol.name.bytes())?;
    out.push(b' ')?;
    show(out, spelled.bytes())?;
    out.push(b' ')?;
    put_value(values, symbol, value, out)?;
    out.push(b'\n')
}

fn put_item(
    alloc: Global,
    values: &BTreeMap<&[u8], u32>,
    item: &Item,
    out: &mut Text,
) -> Result<(), Memory>
    ensures { OnOk result (out.new ≡ out.old ++ spec.item_line (look values.now) item.now.text item.now.value) }
{
    match &item.text {
        ItemText::Symbol(symbol) => put_var(alloc, values, symbol, item.value, out),
        ItemText::Raw(_) => Ok(()),
    }
}

fn put_line_at(
    alloc: Global,
    values: &BTreeMap<&[u8], u32>,
    body: &List<Item>,
    place: u64,
    out: &mut Text,
) -> Result<(), Memory>
    ensures { OnOk result (out.new ≡ out.old ++ spec.line_at (look values.now) body.now place) }
{
    match body.get(place as usize) {
        Some(item) => put_item(alloc, values, item, out),
        None => Ok(()),
    }
}

/// Appends the lines of the items at these places of a body.
pub fn put_vars(
    alloc: Global,
    values: &BTreeMap<&[u8], u32>,
    body: &List<Item>,
    places: &List<u64>,
    out: &mut Text,
) -> Result<(), Memory>
    ensures { OnOk result (out.new ≡ out.old ++ spec.vars_text (look values.now) body.now places.now) }
{
    let places = places.items();
    for place in places {
        put_line_at(alloc, values, body, *place, out)?;
    }
    Ok(())
}
