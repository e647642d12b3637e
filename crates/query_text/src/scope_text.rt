//! The reply on a scope.

ghost use Rattle.std.specs.Prelude.{◌≡◌, ◌++◌, IfOk, OnOk};
ghost use Rattle.scope_lines.specs.Lines.{text_of};
ghost use Rattle.query_text.specs.Externals.{external_value, look};
ghost use Rattle.query_text.specs.ScopeText as spec;

use crate::external::by_name;
use crate::vars::put_vars;
use scope_lines::{Block, Scope};
use st_base::{List, Memory, Text, put_hex8, put_number, show};
use stab_units::{Item, ItemText, Unit};
use std::alloc::Global;
use std::collections::BTreeMap;
use type_graph::External;

/// The name of an item: that of its symbol, or the name as it stands. Takes no memory.
pub fn item_name(item: &Item) -> &[u8]
    ensures { result.now ≡ text_of item.now }
{
    match &item.text {
        ItemText::Symbol(symbol) => symbol.name.bytes(),
        ItemText::Raw(text) => text.bytes(),
    }
}

/// `unit U NAME`.
#[tactic(auto, unfolding(crate::specs::ScopeText::unit_line))]
fn put_unit_line(number: u32, name: &[u8], out: &mut Text) -> Result<(), Memory>
    ensures { OnOk result (out.new ≡ out.old ++ spec.unit_line number name.now) }
{
    out.extend(b"unit ")?;
    put_number(u64::from(number), out)?;
    out.push(b' ')?;
    show(out, name)?;
    out.push(b'\n')
}

/// `function NAME H8`.
#[tactic(auto, unfolding(crate::specs::ScopeText::function_line))]
fn put_function_line(item: &Item, out: &mut Text) -> Result<(), Memory>
    ensures { OnOk result (out.new ≡ out.old ++ spec.function_line item.now) }
{
    out.extend(b"function ")?;
    show(out, item_name(item))?;
    out.push(b' ')?;
    put_hex8(item.value, out)?;
    out.push(b'\n')
}

fn put_function(body: &List<Item>, function: Option<u64>, out: &mut Text) -> Result<(), Memory>
    ensures { OnOk result (out.new ≡ out.old ++ spec.function_text body.now function) }
{
    match function {
        Some(place) => match body.get(place as usize) {
            Some(item) => put_function_line(item, out),
            None => Ok(()),
        },
        None => Ok(()),
    }
}

/// `block LOW HIGH`.
#[tactic(auto, unfolding(crate::specs::ScopeText::block_line))]
fn put_block_line(low: u32, high: u32, out: &mut Text) -> Result<(), Memory>
    ensures { OnOk result (out.new ≡ out.old ++ spec.block_line low high) }
{
    out.extend(b"block ")?;
    put_hex8(low, out)?;
    out.push(b' ')?;
    put_hex8(high, out)?;
    out.push(b'\n')
}

fn put_block(
    alloc: Global,
    values: &BTreeMap<&[u8], u32>,
    body: &List<Item>,
    block: &Block,
    out: &mut Text,
) -> Result<(), Memory>
    ensures { OnOk result (out.new ≡ out.old ++ spec.block_text (look values.now) body.now block.now) }
{
    put_block_line(block.low, block.high, out)?;
    put_vars(alloc, values, body, &block.vars, out)
}

fn put_blocks(
    alloc: Global,
    values: &BTreeMap<&[u8], u32>,
    body: &List<Item>,
    blocks: &List<Block>,
    out: &mut Text,
) -> Result<(), Memory>
    ensures { OnOk result (out.new ≡ out.old ++ spec.blocks_text (look values.now) body.now blocks.now) }
{
    let blocks = blocks.items();
    for block in blocks {
        put_block(alloc, values, body, block, out)?;
    }
    Ok(())
}

// The lines of a scope, with a map of the values of externals.
fn put_scope(
    alloc: Global,
    values: &BTreeMap<&[u8], u32>,
    unit: &Unit,
    scope: &Scope,
    out: &mut Text,
) -> Result<(), Memory>
    ensures { OnOk result (out.new ≡ out.old ++ spec.scope_text (look values.now) unit.now scope.now) }
{
    put_unit_line(scope.unit, unit.name.bytes(), out)?;
    put_function(&unit.body, scope.function, out)?;
    put_vars(alloc, values, &unit.body, &scope.own, out)?;
    put_blocks(alloc, values, &unit.body, &scope.blocks, out)?;
    put_vars(alloc, values, &unit.body, &scope.statics, out)
}

/// The lines of a scope in its unit. The map of externals is made once for all its items.
pub fn scope_text(
    alloc: Global,
    externals: &[External],
    unit: &Unit,
    scope: &Scope,
) -> Result<Text, Memory>
    ensures { IfOk result (λ text. text ≡ spec.scope_text (external_value externals.now) unit.now scope.now) }
{
    let values = by_name(alloc, externals)?;
    let mut text = Text::new(alloc);
    put_scope(alloc, &values, unit, scope, &mut text)?;
    Ok(text)
}
