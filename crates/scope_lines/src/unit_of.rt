ghost use Rattle.std.specs.Prelude.{◌≡◌, ◌<◌, length, IfSome, option_map};
ghost use Rattle.scope_lines.specs.Scopes as spec;

use stab_units::Unit;
use type_graph::World;

/// Whether the unit holds the address; its end is not in it. Takes no memory.
fn holds(unit: &Unit, address: u32) -> bool
    ensures { result ≡ spec.is_within address unit.now }
{
    unit.start <= address && address < unit.end
}

/// The first unit that holds the address, with its number. Takes no memory.
pub(crate) fn unit_at(world: &World, address: u32) -> Option<(usize, &Unit)>
    ensures found { option_map (λ p. (p.0, p.1.now)) result ≡ spec.unit_at world.now address }
    ensures within { IfSome result (λ p. p.0 < length world.now.units) }
{
    let units = world.units.items();
    for (at, unit) in units.iter().enumerate() {
        if holds(unit, address) {
            return Some((at, unit));
        }
    }
    None
}
