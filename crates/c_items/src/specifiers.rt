// What each token does in a specifier: qualifiers, a type, and the body of an enum. The definitions are `Steps`, function by function.

ghost use Rattle.std.specs.Prelude.{◌≡◌, ◌<◌, ◌^◌, ◌+◌, suc, zero, pred};
ghost use Rattle.c_items.specs.Steps as steps;

use crate::role::Role;
use crate::state::{Context, Next, Place, State};
use c_tokens::Kind;

/// The item goes on at a place, with what is open as it was.
pub(crate) fn go(role: Role, place: Place, s: State) -> Next
    ensures { result ≡ steps.go role place s.context s.bodies s.blocks }
{
    Next::Go(
        role,
        State {
            place,
            context: s.context,
            bodies: s.bodies,
            blocks: s.blocks,
        },
    )
}

/// The type of a specifier, behind its `const` and `volatile`.
pub(crate) fn base(t: Kind, s: State) -> Next
    ensures { result ≡ steps.base t s.context s.bodies s.blocks }
{
    match t {
        Kind::Basic => go(Role::Basic, Place::After, s),
        Kind::Void => go(Role::Void, Place::After, s),
        Kind::Name => go(Role::Named, Place::After, s),
        Kind::Struct => go(Role::Struct, Place::Struct, s),
        Kind::Enum => go(Role::Enum, Place::Enum, s),
        _ => Next::Wrong,
    }
}

/// Behind `const`.
pub(crate) fn behind_const(t: Kind, s: State) -> Next
    ensures { result ≡ steps.behind_const t s.context s.bodies s.blocks }
{
    match t {
        Kind::Volatile => go(Role::Volatile, Place::Volatile, s),
        _ => base(t, s),
    }
}

/// Where a specifier begins.
pub(crate) fn specifier_step(t: Kind, s: State) -> Next
    ensures { result ≡ steps.specifier_step t s.context s.bodies s.blocks }
{
    match t {
        Kind::Const => go(Role::Const, Place::Const, s),
        _ => behind_const(t, s),
    }
}

/// Behind a field: the `}` of the body, or another field.
pub(crate) fn fields_step(t: Kind, s: State) -> Next
    ensures { result ≡ steps.fields_step t s.context s.bodies s.blocks }
{
    match t {
        Kind::CloseBrace => {
            let bodies = if s.bodies == 0 { 0 } else { s.bodies - 1 };
            Next::Go(
                Role::BodyEnd,
                State {
                    place: Place::Bodied,
                    context: s.context,
                    bodies,
                    blocks: s.blocks,
                },
            )
        }
        _ => specifier_step(t, s),
    }
}

/// A body without a tag: only as the body of a typedef.
fn nameless(role: Role, place: Place, bodies: u64, s: State) -> Next
    ensures { result ≡ steps.nameless role place s.context s.bodies bodies s.blocks }
{
    if s.bodies != 0 {
        return Next::Wrong;
    }
    match s.context {
        Context::Typedef => Next::Go(
            role,
            State {
                place,
                context: s.context,
                bodies,
                blocks: s.blocks,
            },
        ),
        _ => Next::Wrong,
    }
}

/// Behind `struct` or `union`.
pub(crate) fn struct_step(t: Kind, s: State) -> Next
    requires { s.bodies + 1 < 2 ^ 64 }
    ensures { result ≡ steps.struct_step t s.context s.bodies s.blocks }
{
    match t {
        Kind::Name => go(Role::Tag, Place::StructTag, s),
        Kind::OpenBrace => nameless(Role::Nameless, Place::Specifier, s.bodies + 1, s),
        _ => Next::Wrong,
    }
}

/// Behind `enum`.
pub(crate) fn enum_step(t: Kind, s: State) -> Next
    ensures { result ≡ steps.enum_step t s.context s.bodies s.blocks }
{
    match t {
        Kind::Name => go(Role::EnumTag, Place::EnumTag, s),
        Kind::OpenBrace => nameless(Role::NamelessChoices, Place::Choice, s.bodies, s),
        _ => Next::Wrong,
    }
}

/// Where a choice begins.
pub(crate) fn choice_step(t: Kind, s: State) -> Next
    ensures { result ≡ steps.choice_step t s.context s.bodies s.blocks }
{
    match t {
        Kind::Name => go(Role::Choice, Place::Chosen, s),
        _ => Next::Wrong,
    }
}

/// Behind a choice with its value.
pub(crate) fn valued_step(t: Kind, s: State) -> Next
    ensures { result ≡ steps.valued_step t s.context s.bodies s.blocks }
{
    match t {
        Kind::Comma => go(Role::ChoiceEnd, Place::Choice, s),
        Kind::CloseBrace => go(Role::ChoicesEnd, Place::Bodied, s),
        _ => Next::Wrong,
    }
}

/// Behind the name of a choice.
pub(crate) fn chosen_step(t: Kind, s: State) -> Next
    ensures { result ≡ steps.chosen_step t s.context s.bodies s.blocks }
{
    match t {
        Kind::Equals => go(Role::Quiet, Place::Equal, s),
        _ => valued_step(t, s),
    }
}

/// Behind the `-` of a choice.
pub(crate) fn minus_step(t: Kind, s: State) -> Next
    ensures { result ≡ steps.minus_step t s.context s.bodies s.blocks }
{
    match t {
        Kind::Number => go(Role::Number, Place::Valued, s),
        Kind::Zero => go(Role::Number, Place::Valued, s),
        _ => Next::Wrong,
    }
}

/// Behind the `=` of a choice.
pub(crate) fn equal_step(t: Kind, s: State) -> Next
    ensures { result ≡ steps.equal_step t s.context s.bodies s.blocks }
{
    match t {
        Kind::Minus => go(Role::Minus, Place::Minus, s),
        _ => minus_step(t, s),
    }
}
