ghost use Rattle.std.specs.Prelude.{◌≡◌, ◌<◌, length, List, Option, None, Some};
ghost use Rattle.c_tokens.specs.Tokens.{Token};
ghost use Rattle.c_items.specs.Trees.{Item, BeginsWith, item};
ghost use Rattle.c_items.specs.Acts.{Act, item_acts};
ghost use Rattle.c_items.specs.Steps.{scan, start};
ghost use Rattle.c_items.specs.Ends.{behind};
ghost use Rattle.c_items.specs.Acting.{acts_from};

/// (law) The machine of `Steps` finds exactly the items of `Trees`: it takes an item to its end with the acts that the tree says, whatever
/// follows; what it finds is an item; where it finds none, none stands. So no item is the front of another, trees of the same tokens have the
/// same acts, and the walk over an item reads its acts. An item has one token at least.
pub fn item_laws()
    ensures item_taken { (it : Item) (rest : List Token) → scan start (item it rest) ≡ Some (item_acts it, rest) }
    ensures item_found { (ts rest : List Token) (acts : List Act) → scan start ts ≡ Some (acts, rest) → (it : Item) × BeginsWith ts it rest × (acts ≡ item_acts it) }
    ensures none_stands { (ts : List Token) → behind (scan start ts) ≡ None → (it : Item) (rest : List Token) → BeginsWith ts it rest → ⊥ }
    ensures one_end { (ts us vs : List Token) (it jt : Item) → BeginsWith ts it us → BeginsWith ts jt vs → us ≡ vs }
    ensures one_acts { (ts us vs : List Token) (it jt : Item) → BeginsWith ts it us → BeginsWith ts jt vs → item_acts it ≡ item_acts jt }
    ensures shorter { (it : Item) (rest : List Token) → length rest < length (item it rest) }
    ensures walked { (it : Item) (rest : List Token) → acts_from start (item it rest) ≡ item_acts it }
{}
