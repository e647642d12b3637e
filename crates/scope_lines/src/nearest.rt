ghost use Rattle.std.specs.Prelude.{◌≡◌, ◌<◌, length, IfSome};
ghost use Rattle.scope_lines.specs.Nearest as spec;
ghost use Rattle.scope_lines.specs.Walks.{better};

use crate::role::{Role, item_role};
use stab_codes::N_SLINE;
use stab_units::Item;

/// What is sought for an address: a function or a line entry.
#[derive(Clone, Copy, Debug, Drop, PartialEq, Eq)]
pub enum Sought {
    Function,
    Line,
}

/// The value of an item that is one of those sought. Takes no memory.
fn value_of(item: &Item, sought: Sought) -> Option<u32>
    ensures { result ≡ spec.value_of sought item.now }
{
    match sought {
        Sought::Function => match item_role(item) {
            Role::Function(value) => Some(value),
            _ => None,
        },
        Sought::Line => {
            if item.kind == N_SLINE {
                Some(item.value)
            } else {
                None
            }
        }
    }
}

/// The nearest so far, with its value, and then one item more, at a place after it.
fn better(
    found: Option<(usize, u32)>,
    at: usize,
    value: Option<u32>,
    address: u32,
) -> Option<(usize, u32)>
    ensures { result ≡ better address found at value }
{
    match value {
        None => found,
        Some(new) => {
            if address < new {
                return found;
            }
            match found {
                Some((_, old)) => { if new < old { found } else { Some((at, new)) } }
                None => Some((at, new)),
            }
        }
    }
}

/// The place of the item sought with the greatest value not above the address, the last of equals. Takes no memory.
pub(crate) fn nearest(body: &[Item], sought: Sought, address: u32) -> Option<usize>
    ensures found { result ≡ spec.nearest_item sought body.now address }
    ensures within { IfSome result (λ place. place < length body.now) }
{
    let mut found: Option<(usize, u32)> = None;
    for (at, item) in body.iter().enumerate() {
        found = better(found, at, value_of(item, sought), address);
    }
    match found {
        Some((place, _)) => Some(place),
        None => None,
    }
}
