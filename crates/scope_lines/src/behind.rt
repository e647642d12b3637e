//! What stands after each item of a body, found in one walk from its end: what an item is depends on what lies after it.

ghost use Rattle.std.specs.Prelude.{◌≡◌, ◌∷◌, ◌++◌, [], List, IfOk, MatchOption};
ghost use Rattle.scope_lines.specs.declared.role.Role.{Role as SomeRole};
ghost use Rattle.scope_lines.specs.Behind as spec;
ghost use Rattle.scope_lines.specs.Roles.{roles};

use crate::role::{Role, item_role};
use st_base::Memory;
use stab_units::Item;
use std::alloc::Global;

/// What stands after an item.
#[derive(Clone, Copy, Debug, Drop)]
pub struct Behind {
    /// The first N_LBRAC, N_RBRAC or function after it is an N_LBRAC.
    pub opens_next: bool,
    /// Of an N_LBRAC the value of the N_RBRAC that closes it.
    pub end: Option<u32>,
}

/// What is kept of the items that were read from the end.
#[derive(Debug, Drop)]
pub struct Reading {
    /// The first N_LBRAC, N_RBRAC or function of them is an N_LBRAC.
    pub opens_next: bool,
    /// The values of the N_RBRAC that close nothing among them, the first one last.
    pub ends: Vec<u32>,
}

/// Takes the last number, where there is one.
fn last_taken(ends: &mut Vec<u32>) -> Option<u32>
    ensures { MatchOption result (ends.old.items ≡ [] × ends.new.items ≡ []) (λ x. ends.old.items ≡ ends.new.items ++ x ∷ []) }
{
    ends.pop()
}

impl Reading {
    /// Nothing was read.
    fn new(alloc: Global) -> Reading
        ensures { spec.Reads [] result }
    {
        Reading {
            opens_next: false,
            ends: Vec::new(alloc),
        }
    }

    /// Reads one more item, and answers what stands after it.
    fn read(&mut self, role: Role) -> Result<Behind, Memory>
        ensures { IfOk result (λ b. (xs : List SomeRole) → spec.Reads xs self.old → (b ≡ spec.behind_of role xs) × spec.Reads (role ∷ xs) self.new) }
    {
        let opens_next = self.opens_next;
        match role {
            Role::Opens(_) => {
                let end = last_taken(&mut self.ends);
                self.opens_next = true;
                Ok(Behind { opens_next, end })
            }
            Role::Closes(value) => {
                self.ends.push(value)?;
                self.opens_next = false;
                Ok(Behind {
                    opens_next,
                    end: None,
                })
            }
            Role::Function(_) => {
                self.opens_next = false;
                Ok(Behind {
                    opens_next,
                    end: None,
                })
            }
            Role::Parameter | Role::Local | Role::Static | Role::Other => {
                Ok(Behind {
                    opens_next,
                    end: None,
                })
            }
        }
    }
}

/// What stands after each item, the last item first.
pub(crate) fn behinds(alloc: Global, body: &[Item]) -> Result<Vec<Behind>, Memory>
    ensures { IfOk result (λ found. found.items ≡ spec.behinds (roles body.now)) }
{
    let mut reading = Reading::new(alloc);
    let mut found = Vec::new(alloc);
    for at in (0..body.len()).rev() {
        let behind = reading.read(item_role(&body[at]))?;
        found.push(behind)?;
    }
    Ok(found)
}
