ghost use Rattle.std.specs.Prelude.{◌≡◌, ◌<◌, ◌^◌, ◌↔◌, length, IfOk, IsNone};
ghost use Rattle.scope_lines.specs.Scopes as spec;

use crate::nearest::{Sought, nearest};
use crate::unit_of::unit_at;
use crate::walk::{Asked, walked};
use st_base::{List, Memory};
use stab_units::Unit;
use std::alloc::Global;
use type_graph::World;

/// A block that holds an address: its bounds, and the items that belong to it, by their places in the unit's body.
#[derive(Debug, Drop)]
pub struct Block {
    pub low: u32,
    pub high: u32,
    pub vars: List<u64>,
}

/// What is visible at an address; items are named by their places in the unit's body.
#[derive(Debug, Drop)]
pub struct Scope {
    /// The number of the unit.
    pub unit: u32,
    pub function: Option<u64>,
    /// The items that belong to the function.
    pub own: List<u64>,
    /// The function's blocks that hold the address, in body order.
    pub blocks: List<Block>,
    /// The items of the whole unit.
    pub statics: List<u64>,
}

/// The line of an address: its unit, the place of its entry in the body, and that of the entry which names its file, if one does.
#[derive(Clone, Copy, Debug, Drop, PartialEq, Eq)]
pub struct LineAt {
    pub unit: u32,
    pub item: u64,
    pub file_item: Option<u64>,
}

/// An address of a line: its unit and its value.
#[derive(Clone, Copy, Debug, Drop, PartialEq, Eq)]
pub struct AddressOf {
    pub unit: u32,
    pub value: u32,
}

/// The scope of an address in the unit of this number.
fn scope_in(alloc: Global, number: u32, unit: &Unit, address: u32) -> Result<Scope, Memory>
    ensures { IfOk result (λ scope. scope ≡ spec.scope_in number unit.now address) }
{
    let body = unit.body.items();
    let function = nearest(body, Sought::Function, address);
    let asked = Asked {
        start: unit.start,
        function,
        address,
    };
    let walk = walked(alloc, asked, body)?;
    let function = match function {
        Some(place) => Some(place as u64),
        None => None,
    };
    Ok(Scope {
        unit: number,
        function,
        own: walk.own,
        blocks: walk.blocks,
        statics: walk.statics,
    })
}

/// What is visible at an address: its unit is the first with start <= address < end, its function the N_FUN with descriptor `f` or `F`
/// and the greatest value not above it, the last of equals.
///
/// Parameters (`p`, `P`, `a`, `v`) belong to the last function before them. An item with no descriptor, `r` or `V` belongs to the block
/// of the first N_LBRAC after it, unless an N_RBRAC or a function stands before that, or nothing of the three follows: then it belongs
/// to the last function before it. A block is an N_LBRAC with the N_RBRAC that closes it; its bounds are the unit's start plus their values,
/// modulo 2^32, and it belongs to the last function before its N_LBRAC. Items with `G` or `S` belong to the unit. `None` exactly where no
/// unit holds the address. After "The stabs debug format". Three walks over the unit's body, one after another; the memory taken is
/// that of the answer and of a small record for each item.
pub fn scope_at(alloc: Global, world: &World, address: u32) -> Result<Option<Scope>, Memory>
    requires { length world.now.units < 2 ^ 32 }
    ensures scope { IfOk result (λ found. found ≡ spec.scope_at world.now address) }
    ensures none { IfOk result (λ found. IsNone found ↔ spec.NoUnit world.now address) }
{
    match unit_at(world, address) {
        None => Ok(None),
        Some((number, unit)) => {
            let scope = scope_in(alloc, number as u32, unit, address)?;
            Ok(Some(scope))
        }
    }
}
