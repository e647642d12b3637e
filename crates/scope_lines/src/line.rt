ghost use Rattle.std.specs.Prelude.{◌≡◌, ◌<◌, ◌^◌, ◌↔◌, if◌then◌else◌, Some, length, IsNone};
ghost use Rattle.scope_lines.specs.Lines as spec;
ghost use Rattle.scope_lines.specs.ListPlaces.{last_place};

use crate::nearest::{Sought, nearest};
use crate::scope::LineAt;
use crate::unit_of::unit_at;
use stab_codes::N_SOL;
use stab_units::{Item, Unit};
use type_graph::World;

/// The place of the last N_SOL, one item on.
fn next_source(item: &Item, at: u64, found: Option<u64>) -> Option<u64>
    ensures { result ≡ (if spec.is_source item.now then Some at else found) }
{
    if item.kind == N_SOL { Some(at) } else { found }
}

/// The place of the last N_SOL. Takes no memory.
fn last_source(body: &[Item]) -> Option<u64>
    ensures { result ≡ last_place spec.is_source body.now }
{
    let mut found = None;
    for (at, item) in body.iter().enumerate() {
        found = next_source(item, at as u64, found);
    }
    found
}

/// The line of an address in the unit of this number. Takes no memory.
fn line_in(number: u32, unit: &Unit, address: u32) -> Option<LineAt>
    ensures { result ≡ spec.line_in number unit.now address }
{
    let body = unit.body.items();
    let place = nearest(body, Sought::Line, address)?;
    Some(LineAt {
        unit: number,
        item: place as u64,
        file_item: last_source(&body[..place]),
    })
}

/// The line of an address: the N_SLINE of its unit with the greatest value not above it, the last of equals, and the last N_SOL before
/// that, which names its file.
///
/// `None` exactly where no unit holds the address, or the unit has no N_SLINE at or below it. Takes no memory. After "The stabs debug
/// format" on line numbers.
pub fn line_at(world: &World, address: u32) -> Option<LineAt>
    requires { length world.now.units < 2 ^ 32 }
    ensures line { result ≡ spec.line_at world.now address }
    ensures none { IsNone result ↔ spec.NoLine world.now address }
{
    match unit_at(world, address) {
        None => None,
        Some((number, unit)) => line_in(number as u32, unit, address),
    }
}
