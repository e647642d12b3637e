// What each token does at each place.

ghost use Rattle.std.specs.Prelude.{◌≡◌, ◌<◌, ◌^◌, ◌+◌, suc, zero};
ghost use Rattle.c_items.specs.Steps as steps;
ghost use Rattle.c_items.specs.declared.state.Place.TheVariants.{Specifier};

use crate::declarators::{
    after, bodied_step, closed_step, enum_tag_step, length_step, lengthened_step, named_step,
    struct_tag_step,
};
use crate::functions::{locals_step, parameters_step, paren_step, statements_step, void_step};
use crate::role::Role;
use crate::specifiers::{
    base, behind_const, choice_step, chosen_step, enum_step, equal_step, fields_step, minus_step,
    specifier_step, struct_step, valued_step,
};
use crate::state::{Context, Next, Place, State};
use c_tokens::Kind;

/// A specifier begins in a context.
fn begin(role: Role, context: Context) -> Next
    ensures { result ≡ steps.go role Specifier context 0 0 }
{
    Next::Go(
        role,
        State {
            place: Place::Specifier,
            context,
            bodies: 0,
            blocks: 0,
        },
    )
}

/// The first token of an item.
fn start_step(t: Kind) -> Next
    ensures { result ≡ steps.start_step t }
{
    match t {
        Kind::Include => Next::Done(Role::Include),
        Kind::Typedef => begin(Role::Quiet, Context::Typedef),
        Kind::Static => begin(Role::Quiet, Context::Static),
        Kind::Extern => begin(Role::Quiet, Context::Extern),
        _ => specifier_step(
            t,
            State {
                place: Place::Specifier,
                context: Context::Plain,
                bodies: 0,
                blocks: 0,
            },
        ),
    }
}

/// What the token does at the state. Takes no memory.
pub(crate) fn step(s: State, t: Kind) -> Next
    requires bodies { s.bodies + 1 < 2 ^ 64 }
    requires blocks { s.blocks + 1 < 2 ^ 64 }
    ensures { result ≡ steps.step s t }
{
    match s.place {
        Place::Start => start_step(t),
        Place::Specifier => specifier_step(t, s),
        Place::Const => behind_const(t, s),
        Place::Volatile => base(t, s),
        Place::Struct => struct_step(t, s),
        Place::StructTag => struct_tag_step(t, s),
        Place::Enum => enum_step(t, s),
        Place::EnumTag => enum_tag_step(t, s),
        Place::Choice => choice_step(t, s),
        Place::Chosen => chosen_step(t, s),
        Place::Equal => equal_step(t, s),
        Place::Minus => minus_step(t, s),
        Place::Valued => valued_step(t, s),
        Place::Fields => fields_step(t, s),
        Place::After => after(t, s),
        Place::Bodied => bodied_step(t, s),
        Place::Named => named_step(t, s),
        Place::Length => length_step(t, s),
        Place::Lengthened => lengthened_step(t, s),
        Place::Closed => closed_step(t, s),
        Place::Parameters => parameters_step(t, s),
        Place::Void => void_step(t, s),
        Place::Paren => paren_step(t, s),
        Place::Locals => locals_step(t, s),
        Place::Statements => statements_step(t, s),
    }
}
