ghost use Rattle.std.specs.Prelude.{◌≡◌, List, []};
ghost use Rattle.c_tokens.specs.Tokens.{Token};
ghost use Rattle.c_items.specs.Trees.{Item, BeginsWith};
ghost use Rattle.c_items.specs.Acts.{item_acts};
ghost use Rattle.c_items.specs.Acting.{all_acted};
ghost use Rattle.c_units.specs.declared.draft.Draft.{Draft as DraftValue};
ghost use Rattle.c_types.specs.Acts.{on_ok};
ghost use Rattle.c_meaning.specs.Meaning.{of_item};
ghost use Rattle.c_meaning.specs.Walking.{act, ready, done};

/// (law) Two items in front of the same tokens mean the same for every unit; and the walk over the tokens of an item gives what the
/// recursion on its tree gives, the draft or the first fault, with no body open at the end.
pub fn item_means()
    ensures one_meaning { (ts us vs : List Token) (it jt : Item) (u : DraftValue) → BeginsWith ts it us → BeginsWith ts jt vs → of_item it u ≡ of_item jt u }
    ensures walked { (it : Item) (u : DraftValue) → all_acted act (item_acts it) (ready u []) ≡ on_ok (of_item it u) done }
{}
