//! The reply to a query.

ghost use Rattle.std.specs.Prelude.{◌≡◌, ◌<◌, ◌^◌, length, IfOk};
ghost use Rattle.query_text.specs.Listed.{IsListingText};
ghost use Rattle.query_text.specs.Replies as spec;
ghost use Rattle.type_graph.specs.Types.{tag_of, typedef_of};
ghost use Rattle.scope_lines.specs.Scopes as scope_specs;
ghost use Rattle.scope_lines.specs.Lines as line_specs;
ghost use Rattle.query_text.specs.LineText as line_texts;
ghost use Rattle.query_text.specs.UnitLines as unit_texts;

use crate::line_text::{addresses_text, line_text};
use crate::listed::listing_text;
use crate::query::Query;
use crate::scope_text::scope_text;
use crate::units::{files_text, units_text};
use scope_lines::{LineAt, Scope, addresses, line_at, scope_at};
use st_base::{Memory, Text};
use stab_grammar::Key;
use stab_units::Unit;
use std::alloc::Global;
use type_graph::{World, find_tag, find_typedef};

fn files_lines(alloc: Global, world: &World, number: u32) -> Result<Text, Memory>
    ensures { IfOk result (spec.OnUnit world.now number (λ unit lines. lines ≡ unit_texts.files_text unit.files)) }
{
    match world.units.get(number as usize) {
        Some(unit) => files_text(alloc, unit.files.items()),
        None => Ok(Text::new(alloc)),
    }
}

// The text of the listing of a key, where there is one.
fn listing_of(alloc: Global, unit: &Unit, key: Option<Key>) -> Result<Text, Memory>
    ensures { IfOk result (spec.Tells key (IsListingText unit.now)) }
{
    match key {
        Some(key) => listing_text(alloc, unit, key),
        None => Ok(Text::new(alloc)),
    }
}

fn tag_lines(alloc: Global, world: &World, number: u32, name: &[u8]) -> Result<Text, Memory>
    ensures { IfOk result (spec.OnUnit world.now number (λ unit. spec.Tells (tag_of unit name.now) (IsListingText unit))) }
{
    match world.units.get(number as usize) {
        Some(unit) => listing_of(alloc, unit, find_tag(unit, name)),
        None => Ok(Text::new(alloc)),
    }
}

fn typedef_lines(alloc: Global, world: &World, number: u32, name: &[u8]) -> Result<Text, Memory>
    ensures { IfOk result (spec.OnUnit world.now number (λ unit. spec.Tells (typedef_of unit name.now) (IsListingText unit))) }
{
    match world.units.get(number as usize) {
        Some(unit) => listing_of(alloc, unit, find_typedef(unit, name)),
        None => Ok(Text::new(alloc)),
    }
}

fn number_lines(alloc: Global, world: &World, number: u32, key: Key) -> Result<Text, Memory>
    ensures { IfOk result (spec.OnUnit world.now number (λ unit. IsListingText unit key)) }
{
    match world.units.get(number as usize) {
        Some(unit) => listing_text(alloc, unit, key),
        None => Ok(Text::new(alloc)),
    }
}

// The lines of a scope that was found.
fn found_scope(alloc: Global, world: &World, scope: &Scope) -> Result<Text, Memory>
    ensures { IfOk result (spec.IsScope world.now scope.now) }
{
    match world.units.get(scope.unit as usize) {
        Some(unit) => scope_text(alloc, world.externals.items(), unit, scope),
        None => Ok(Text::new(alloc)),
    }
}

fn scope_lines(alloc: Global, world: &World, address: u32) -> Result<Text, Memory>
    requires { length world.now.units < 2 ^ 32 }
    ensures { IfOk result (spec.Tells (scope_specs.scope_at world.now address) (spec.IsScope world.now)) }
{
    match scope_at(alloc, world, address)? {
        Some(scope) => found_scope(alloc, world, &scope),
        None => Ok(Text::new(alloc)),
    }
}

// The line that was found.
fn found_line(alloc: Global, world: &World, found: LineAt) -> Result<Text, Memory>
    ensures { IfOk result (spec.IsLine world.now found) }
{
    match world.units.get(found.unit as usize) {
        Some(unit) => line_text(alloc, unit, found),
        None => Ok(Text::new(alloc)),
    }
}

fn line_lines(alloc: Global, world: &World, address: u32) -> Result<Text, Memory>
    requires { length world.now.units < 2 ^ 32 }
    ensures { IfOk result (spec.Tells (line_specs.line_at world.now address) (spec.IsLine world.now)) }
{
    match line_at(world, address) {
        Some(found) => found_line(alloc, world, found),
        None => Ok(Text::new(alloc)),
    }
}

fn address_lines(alloc: Global, world: &World, file: &[u8], line: u16) -> Result<Text, Memory>
    requires { length world.now.units < 2 ^ 32 }
    ensures { IfOk result (λ text. text ≡ line_texts.addresses_text (line_specs.addresses world.now file.now line)) }
{
    let found = addresses(alloc, world, file, line)?;
    addresses_text(alloc, found.items())
}

// The lines of the reply, none where what is asked for is not there.
fn reply_lines(alloc: Global, world: &World, query: &Query) -> Result<Text, Memory>
    requires { length world.now.units < 2 ^ 32 }
    ensures { IfOk result (spec.HasLines world.now query.now) }
{
    match query {
        Query::Units => units_text(alloc, world.units.items()),
        Query::Files(unit) => files_lines(alloc, world, *unit),
        Query::TagNamed(unit, name) => tag_lines(alloc, world, *unit, name.bytes()),
        Query::TypeNamed(unit, name) => typedef_lines(alloc, world, *unit, name.bytes()),
        Query::Number(unit, file, number) => {
            let key = Key {
                file: *file,
                number: *number,
            };
            number_lines(alloc, world, *unit, key)
        }
        Query::Scope(address) => scope_lines(alloc, world, *address),
        Query::Line(address) => line_lines(alloc, world, *address),
        Query::Addresses(file, line) => address_lines(alloc, world, file.bytes(), *line),
    }
}

/// The reply to a query on a world: lines of text, each ended by a line feed, or the line `none` where there are none.
///
/// `units` gives a line `U START END NAME` for each unit, `files` a line `F NAME` for each file of a unit; `tag`, `type` and `number`
/// the listing of a key; `scope` what is visible at an address; `line` the line `FILE LINE ADDRESS`; `addresses` a line `U ADDRESS`
/// for each address of a line. Names, types and bodies stand in their shown form, START, END, ADDRESS and the values of items in
/// eight hexadecimal digits, all other numbers in decimal. The texts are this project's own.
pub fn reply_text(alloc: Global, world: &World, query: &Query) -> Result<Text, Memory>
    requires { length world.now.units < 2 ^ 32 }
    ensures { IfOk result (spec.Answers world.now query.now) }
{
    let mut text = reply_lines(alloc, world, query)?;
    if text.bytes().is_empty() {
        text.extend(b"none\n")?;
    }
    Ok(text)
}
