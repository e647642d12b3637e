// What each token does behind a specifier: stars, the name that is declared, lengths of arrays, and the end of the declaration.

ghost use Rattle.std.specs.Prelude.{◌≡◌, ◌<◌, ◌^◌, ◌+◌, suc, zero};
ghost use Rattle.c_items.specs.Steps as steps;
ghost use Rattle.c_items.specs.declared.state.Context.TheVariants.{Parameter};
ghost use Rattle.c_items.specs.declared.state.Place.TheVariants.{Parameters};

use crate::role::Role;
use crate::specifiers::go;
use crate::state::{Context, Next, Place, State};
use c_tokens::Kind;

/// The role of a name that is declared.
#[tactic(auto, unfolding(crate::specs::Steps::declares))]
pub(crate) fn declares(s: State) -> Role
    ensures { result ≡ steps.declares s.context s.bodies }
{
    if s.bodies != 0 {
        return Role::Declared;
    }
    match s.context {
        Context::Parameter => Role::ParameterName,
        Context::Local => Role::LocalName,
        Context::Extern => Role::Declared,
        _ => Role::GivenName,
    }
}

/// Behind a type: stars and a name.
pub(crate) fn after(t: Kind, s: State) -> Next
    ensures { result ≡ steps.after t s.context s.bodies s.blocks }
{
    match t {
        Kind::Star => go(Role::Star, Place::After, s),
        Kind::Name => go(declares(s), Place::Named, s),
        _ => Next::Wrong,
    }
}

/// Behind the tag of a structure or union: a body, or stars and a name.
pub(crate) fn struct_tag_step(t: Kind, s: State) -> Next
    requires { s.bodies + 1 < 2 ^ 64 }
    ensures { result ≡ steps.struct_tag_step t s.context s.bodies s.blocks }
{
    match t {
        Kind::OpenBrace => Next::Go(
            Role::Body,
            State {
                place: Place::Specifier,
                context: s.context,
                bodies: s.bodies + 1,
                blocks: s.blocks,
            },
        ),
        Kind::Star => go(Role::Star, Place::After, s),
        Kind::Name => go(declares(s), Place::Named, s),
        _ => Next::Wrong,
    }
}

/// Behind the tag of an enum: choices, or stars and a name.
pub(crate) fn enum_tag_step(t: Kind, s: State) -> Next
    ensures { result ≡ steps.enum_tag_step t s.context s.bodies s.blocks }
{
    match t {
        Kind::OpenBrace => go(Role::Choices, Place::Choice, s),
        Kind::Star => go(Role::Star, Place::After, s),
        Kind::Name => go(declares(s), Place::Named, s),
        _ => Next::Wrong,
    }
}

/// The `;` right behind a body.
fn alone(s: State) -> Next
    ensures { result ≡ steps.alone s.context s.bodies }
{
    if s.bodies != 0 {
        return Next::Wrong;
    }
    match s.context {
        Context::Plain => Next::Done(Role::Alone),
        _ => Next::Wrong,
    }
}

/// Behind the `}` of a body.
pub(crate) fn bodied_step(t: Kind, s: State) -> Next
    ensures { result ≡ steps.bodied_step t s.context s.bodies s.blocks }
{
    match t {
        Kind::Semi => alone(s),
        Kind::Star => go(Role::Star, Place::After, s),
        Kind::Name => go(declares(s), Place::Named, s),
        _ => Next::Wrong,
    }
}

/// The `;` of a declaration.
fn ended(s: State) -> Next
    ensures { result ≡ steps.ended s.context s.bodies s.blocks }
{
    if s.bodies != 0 {
        return go(Role::FieldEnd, Place::Fields, s);
    }
    match s.context {
        Context::Local => go(Role::LocalEnd, Place::Locals, s),
        Context::Parameter => Next::Wrong,
        Context::Typedef => Next::Done(Role::TypedefEnd),
        Context::Plain => Next::Done(Role::VariableEnd),
        Context::Static => Next::Done(Role::StaticEnd),
        Context::Extern => Next::Done(Role::ExternEnd),
    }
}

/// The `,` or `)` behind a parameter.
fn parameter_end(t: Kind, s: State) -> Next
    requires no_body { s.bodies ≡ 0 }
    requires in_parameters { s.context ≡ Parameter }
    ensures { result ≡ steps.parameter_end t s.blocks }
{
    match t {
        Kind::Comma => go(Role::ParameterEnd, Place::Specifier, s),
        Kind::CloseParen => go(Role::ParameterEnd, Place::Paren, s),
        _ => Next::Wrong,
    }
}

/// Behind a declared name, where only a parameter may end.
fn parameter(t: Kind, s: State) -> Next
    ensures { result ≡ steps.parameter t s.context s.bodies s.blocks }
{
    if s.bodies != 0 {
        return Next::Wrong;
    }
    match s.context {
        Context::Parameter => parameter_end(t, s),
        _ => Next::Wrong,
    }
}

/// The `[` behind a declared name.
fn bracket(s: State) -> Next
    ensures { result ≡ steps.bracket s.context s.bodies s.blocks }
{
    if s.bodies != 0 {
        return go(Role::Quiet, Place::Length, s);
    }
    match s.context {
        Context::Parameter => Next::Wrong,
        _ => go(Role::Quiet, Place::Length, s),
    }
}

/// Between the parentheses of a function.
fn open_parameters(role: Role, s: State) -> Next
    ensures { result ≡ steps.go role Parameters Parameter 0 s.blocks }
{
    Next::Go(
        role,
        State {
            place: Place::Parameters,
            context: Context::Parameter,
            bodies: 0,
            blocks: s.blocks,
        },
    )
}

/// The `(` behind a declared name.
fn paren(s: State) -> Next
    ensures { result ≡ steps.paren s.context s.bodies s.blocks }
{
    if s.bodies != 0 {
        return Next::Wrong;
    }
    match s.context {
        Context::Plain => open_parameters(Role::Function, s),
        Context::Static => open_parameters(Role::StaticFunction, s),
        _ => Next::Wrong,
    }
}

/// Behind a declared name.
pub(crate) fn named_step(t: Kind, s: State) -> Next
    ensures { result ≡ steps.named_step t s.context s.bodies s.blocks }
{
    match t {
        Kind::Semi => ended(s),
        Kind::OpenBracket => bracket(s),
        Kind::OpenParen => paren(s),
        _ => parameter(t, s),
    }
}

/// Behind `[`.
pub(crate) fn length_step(t: Kind, s: State) -> Next
    ensures { result ≡ steps.length_step t s.context s.bodies s.blocks }
{
    match t {
        Kind::Number => go(Role::Length, Place::Lengthened, s),
        _ => Next::Wrong,
    }
}

/// Behind the number of a length.
pub(crate) fn lengthened_step(t: Kind, s: State) -> Next
    ensures { result ≡ steps.lengthened_step t s.context s.bodies s.blocks }
{
    match t {
        Kind::CloseBracket => go(Role::Quiet, Place::Closed, s),
        _ => Next::Wrong,
    }
}

/// Behind `]`.
pub(crate) fn closed_step(t: Kind, s: State) -> Next
    ensures { result ≡ steps.closed_step t s.context s.bodies s.blocks }
{
    match t {
        Kind::Semi => ended(s),
        Kind::OpenBracket => bracket(s),
        _ => Next::Wrong,
    }
}
