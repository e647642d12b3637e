ghost use Rattle.std.specs.Prelude.{◌≡◌, ◌<◌, ◌^◌, length, List, Result};
ghost use Rattle.st_base.specs.declared.fault.Fault.{Fault};
ghost use Rattle.c_tokens.specs.Tokens.{Info, Token as TokenValue};
ghost use Rattle.c_items.specs.declared.role.Role.{Role as RoleValue};
ghost use Rattle.c_items.specs.Trees.{Item, BeginsWith};
ghost use Rattle.c_items.specs.Acts.{item_acts};
ghost use Rattle.c_items.specs.Steps.{start};
ghost use Rattle.c_items.specs.Acting.{Did, all_acted, acts_from};

use crate::role::Role;
use crate::state::{Context, Next, Place, State};
use crate::stepping::step;
use c_tokens::{Cursor, Token};
use st_base::Refused;

/// What carries out the tokens of an item, one after another.
pub trait Actor {
    // What a token of this role, which says this, makes of the actor, or the fault that it is.
    ghost acts: { RoleValue → Info → Self → Result Self Fault };

    /// Carries out one token, which has this role in its item. Refused with the fault that the token is, or out of memory; an item is not
    /// gone on with after that.
    fn act(&mut self, role: Role, token: &Token<'_>) -> Result<(), Refused>
        ensures { Did (acts role token.now.1 self.old) self.new result };
}

// The walk, as the machine gives each token its role.
fn walk_tokens<A: Actor>(from: &Cursor<'_>, actor: &mut A) -> Result<(), Refused>
    ensures { Did (all_acted A.acts (acts_from start from.now) actor.old) actor.new result }
{
    from.is_short();
    let mut left = from.copy();
    let mut state = State {
        place: Place::Start,
        context: Context::Plain,
        bodies: 0,
        blocks: 0,
    };
    while let Some(token) = left.next() {
        match step(state, token.kind()) {
            Next::Wrong => return Ok(()),
            Next::Done(role) => return actor.act(role, &token),
            Next::Go(role, next) => {
                actor.act(role, &token)?;
                state = next;
            }
        }
    }
    Ok(())
}

/// Hands an actor the tokens of the item in front of `from` in their order, each with its role, up to the first that it refuses; its refusal
/// is the answer. Where no item stands in front, the tokens up to the first that no form allows are handed over. Takes no memory but what
/// the actor takes, and the time of the tokens.
pub fn walk<A: Actor>(from: &Cursor<'_>, actor: &mut A) -> Result<(), Refused>
    ensures of_item { (it : Item) (rest : List TokenValue) → BeginsWith from.now it rest → Did (all_acted A.acts (item_acts it) actor.old) actor.new result }
    ensures of_tokens { Did (all_acted A.acts (acts_from start from.now) actor.old) actor.new result }
{
    walk_tokens(from, actor)
}
