//! What the definitions determine: which words ask a query, and that a query has exactly one reply on a world.

ghost use Rattle.std.specs.Prelude.{◌≡◌, ◌↔◌, ℕ, List, Ok, Err};
ghost use Rattle.type_graph.specs.declared.world.World.{World as WorldValue};
ghost use Rattle.query_text.specs.declared.address.TheConstants.{MOST_DIGITS};
ghost use Rattle.query_text.specs.declared.query.Query.{Query as QueryValue};
ghost use Rattle.query_text.specs.declared.want.TheConstants.{GREATEST_LINE, GREATEST_NUMBER};
ghost use Rattle.query_text.specs.Queries.{asked, Spell, SaysWhat, IsWrong};
ghost use Rattle.query_text.specs.Replies.{Answers};

use type_graph::{a_listing, one_listing};

/// Words ask a query exactly where they spell it, so they ask one at most; where they have a wrong place they spell none, the words before
/// that place begin a query, and with the word at it they begin none.
pub fn asking_law()
    ensures spelled { (words : List (List ℕ)) (query : QueryValue) → (asked words ≡ Ok query) ↔ Spell words query }
    ensures one { (words : List (List ℕ)) (query other : QueryValue) → Spell words query → Spell words other → query ≡ other }
    ensures wrong { (words : List (List ℕ)) → SaysWhat words (asked words) }
    ensures place { (words : List (List ℕ)) (at : ℕ) → asked words ≡ Err at → IsWrong words at }
{}

/// What the limits of the words of a query are, in numbers: definitions cite the constants, so that a changed constant would change what
/// they say.
pub fn limits_are()
    ensures digits { MOST_DIGITS ≡ 8 }
    ensures number { GREATEST_NUMBER ≡ 4294967295 }
    ensures line { GREATEST_LINE ≡ 65535 }
{}

/// A query has one reply on a world.
pub fn one_reply()
    ensures { (world : WorldValue) (query : QueryValue) (text other : List ℕ) → Answers world query text → Answers world query other → text ≡ other }
{
    one_listing();
}

/// Every query has a reply on every world.
pub fn a_reply()
    ensures { (world : WorldValue) (query : QueryValue) → (text : List ℕ) × Answers world query text }
{
    a_listing();
}
