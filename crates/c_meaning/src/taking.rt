ghost use Rattle.std.specs.Prelude.{◌≡◌, List};
ghost use Rattle.c_tokens.specs.Tokens.{Token};
ghost use Rattle.c_items.specs.Trees.{Item, BeginsWith};
ghost use Rattle.c_types.specs.Acts.{Answers};
ghost use Rattle.c_meaning.specs.Meaning.{of_item};

use crate::carrying::Carrier;
use c_items::walk;
use c_tokens::Cursor;
use c_units::Draft;
use st_base::Refused;
use std::alloc::Global;

/// The draft behind the item in front of `from`, which no include is, or the item's first fault in reading order, with its line and the place
/// of the file. Takes memory for the draft, and for the open bodies of the item, which may nest to any depth; out of memory is its own
/// answer.
pub fn take_item(alloc: Global, from: &Cursor<'_>, draft: Draft) -> Result<Draft, Refused>
    ensures { (it : Item) (rest : List Token) → BeginsWith from.now it rest → Answers (of_item it draft) result }
{
    let mut carrier = Carrier::new(alloc, draft);
    let walked = walk(from, &mut carrier);
    let draft = carrier.into_draft();
    match walked {
        Ok(()) => Ok(draft),
        Err(refused) => Err(refused),
    }
}
