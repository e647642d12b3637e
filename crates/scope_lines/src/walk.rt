//! The walk over a body from its front, with what stands after each item at hand.

ghost use Rattle.std.specs.Prelude.{◌≡◌, ◌≢◌, ◌∷◌, ◌++◌, [], IfOk, OnOk};
ghost use Rattle.scope_lines.specs.Blocks as blocks;
ghost use Rattle.scope_lines.specs.Scopes as spec;
ghost use Rattle.scope_lines.specs.Walks as walks;
ghost use Rattle.scope_lines.specs.Roles.{roles};

use crate::behind::{Behind, behinds};
use crate::role::{Role, item_role};
use crate::scope::Block;
use st_base::{List, Memory};
use stab_units::Item;
use std::alloc::Global;

/// What is asked about a unit.
#[derive(Clone, Copy, Debug, Drop)]
pub struct Asked {
    /// The unit's start.
    pub start: u32,
    /// The place of the function of the address.
    pub function: Option<usize>,
    pub address: u32,
}

/// What was found in the items so far.
#[derive(Debug, Drop)]
pub struct Walk {
    /// The place of the last function.
    pub last: Option<usize>,
    /// The items that belong to the block of an N_LBRAC, if one comes next.
    pub waiting: List<u64>,
    pub own: List<u64>,
    pub blocks: List<Block>,
    pub statics: List<u64>,
}

/// Whether the function of the address is the last one.
fn same_place(function: Option<usize>, last: Option<usize>) -> bool
    ensures { result ≡ spec.same_place function last }
{
    match (function, last) {
        (Some(function), Some(last)) => function == last,
        _ => false,
    }
}

/// Whether an item belongs to the last function; `opens` says that an N_LBRAC decides.
fn is_own(role: Role, opens: bool) -> bool
    ensures { result ≡ spec.is_own role opens }
{
    match role {
        Role::Parameter => true,
        Role::Local => !opens,
        _ => false,
    }
}

/// Whether an item belongs to the unit.
fn is_static(role: Role) -> bool
    ensures { result ≡ spec.is_static role }
{
    matches!(role, Role::Static)
}

/// Appends a place where it counts.
fn put_place(counts: bool, at: u64, out: &mut List<u64>) -> Result<(), Memory>
    ensures { OnOk result (out.new ≡ out.old ++ walks.placed_if counts at) }
{
    if counts {
        out.push(at)?;
    }
    Ok(())
}

/// Appends the block of an N_LBRAC, where it is closed and holds the address.
fn put_block(
    asked: Asked,
    low: u32,
    end: Option<u32>,
    vars: List<u64>,
    out: &mut List<Block>,
) -> Result<(), Memory>
    ensures { OnOk result (out.new ≡ out.old ++ blocks.block_at asked.start asked.address low end vars) }
{
    if let Some(high) = end {
        let low = asked.start.wrapping_add(low);
        let high = asked.start.wrapping_add(high);
        if low <= asked.address && asked.address < high {
            out.push(Block { low, high, vars })?;
        }
    }
    Ok(())
}

/// The last function, one item on.
fn next_last(role: Role, at: usize, last: Option<usize>) -> Option<usize>
    ensures { result ≡ walks.next_last role at last }
{
    match role {
        Role::Function(_) => Some(at),
        _ => last,
    }
}

/// Takes one more item.
fn step(
    alloc: Global,
    asked: Asked,
    walk: &mut Walk,
    at: usize,
    role: Role,
    behind: Behind,
) -> Result<(), Memory>
    ensures { OnOk result (walk.new ≡ walks.stepped asked walk.old at role behind) }
{
    let inside = same_place(asked.function, walk.last);
    put_place(
        is_own(role, behind.opens_next) && inside,
        at as u64,
        &mut walk.own,
    )?;
    put_place(is_static(role), at as u64, &mut walk.statics)?;
    match role {
        Role::Opens(low) => {
            let vars = std::mem::replace(&mut walk.waiting, List::new(alloc));
            if inside {
                put_block(asked, low, behind.end, vars, &mut walk.blocks)?;
            }
        }
        Role::Closes(_) | Role::Function(_) => walk.waiting.cut(0),
        Role::Local => walk.waiting.push(at as u64)?,
        Role::Parameter | Role::Static | Role::Other => {}
    }
    walk.last = next_last(role, at, walk.last);
    Ok(())
}

/// Takes what stands after the next item.
fn taken(found: &mut Vec<Behind>) -> Behind
    requires { found.old.items ≢ [] }
    ensures { found.old.items ≡ found.new.items ++ result ∷ [] }
{
    match found.pop() {
        Some(behind) => behind,
        None => Behind {
            opens_next: false,
            end: None,
        },
    }
}

/// What belongs to the function, its blocks that hold the address, and what belongs to the unit.
pub(crate) fn walked(alloc: Global, asked: Asked, body: &[Item]) -> Result<Walk, Memory>
    ensures { IfOk result (λ w. (w.own ≡ spec.own_of asked.function (roles body.now))
        × (w.blocks ≡ spec.blocks_of asked.start asked.function asked.address (roles body.now))
        × (w.statics ≡ spec.statics_of (roles body.now))) }
{
    let mut found = behinds(alloc, body)?;
    let mut walk = Walk {
        last: None,
        waiting: List::new(alloc),
        own: List::new(alloc),
        blocks: List::new(alloc),
        statics: List::new(alloc),
    };
    for (at, item) in body.iter().enumerate() {
        let behind = taken(&mut found);
        step(alloc, asked, &mut walk, at, item_role(item), behind)?;
    }
    Ok(walk)
}
