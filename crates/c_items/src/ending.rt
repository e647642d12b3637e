ghost use Rattle.std.specs.Prelude.{◌≡◌, ◌<◌, ◌^◌, length, List, Option, None, Some};
ghost use Rattle.c_tokens.specs.Tokens.{Token};
ghost use Rattle.c_items.specs.Trees.{Item, BeginsWith};
ghost use Rattle.c_items.specs.Steps.{scan, start};
ghost use Rattle.c_items.specs.Ends.{behind};

use crate::state::{Context, Next, Place, State};
use crate::stepping::step;
use c_tokens::Cursor;

// What the machine finds behind the item in front.
fn scanned_end<'a>(from: &Cursor<'a>) -> Option<Cursor<'a>>
    ensures { behind (scan start from.now) ≡ result }
{
    from.is_short();
    let mut left = from.copy();
    let mut state = State {
        place: Place::Start,
        context: Context::Plain,
        bodies: 0,
        blocks: 0,
    };
    while let Some(token) = left.next() {
        match step(state, token.kind()) {
            Next::Wrong => return None,
            Next::Done(_) => return Some(left),
            Next::Go(_, next) => state = next,
        }
    }
    None
}

/// The tokens behind the item in front of `from`; none where no item stands there. An item is what `Trees` spells, and has one end. Takes no
/// memory however deep the item nests, and the time of its tokens, or of those up to the first that no form allows.
pub fn item_end<'a>(from: &Cursor<'a>) -> Option<Cursor<'a>>
    ensures found { (rest : List Token) → result ≡ Some rest → (it : Item) × BeginsWith from.now it rest }
    ensures none { result ≡ None → (it : Item) (rest : List Token) → BeginsWith from.now it rest → ⊥ }
    ensures shorter { (rest : List Token) → result ≡ Some rest → length rest < length from.now }
    ensures scanned { behind (scan start from.now) ≡ result }
{
    scanned_end(from)
}
