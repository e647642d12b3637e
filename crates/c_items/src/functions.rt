// What each token does from the `(` of a function on: parameters and blocks.

ghost use Rattle.std.specs.Prelude.{◌≡◌, ◌<◌, ◌^◌, ◌+◌, suc, zero};
ghost use Rattle.c_items.specs.Steps as steps;
ghost use Rattle.c_items.specs.declared.state.Context.TheVariants.{Local};

use crate::declarators::declares;
use crate::role::Role;
use crate::specifiers::{go, specifier_step};
use crate::state::{Context, Next, Place, State};
use c_tokens::Kind;

/// Behind the `(` of a function.
pub(crate) fn parameters_step(t: Kind, s: State) -> Next
    ensures { result ≡ steps.parameters_step t s.context s.bodies s.blocks }
{
    match t {
        Kind::Void => go(Role::Void, Place::Void, s),
        _ => specifier_step(t, s),
    }
}

/// Behind the `void` there: nothing is taken, or it is the type of a parameter.
pub(crate) fn void_step(t: Kind, s: State) -> Next
    ensures { result ≡ steps.void_step t s.context s.bodies s.blocks }
{
    match t {
        Kind::CloseParen => go(Role::NoParameters, Place::Paren, s),
        Kind::Star => go(Role::Star, Place::After, s),
        Kind::Name => go(declares(s), Place::Named, s),
        _ => Next::Wrong,
    }
}

/// Behind the `)` of a function: its block.
pub(crate) fn paren_step(t: Kind, s: State) -> Next
    ensures { result ≡ steps.paren_step t s.context s.bodies s.blocks }
{
    match t {
        Kind::OpenBrace => Next::Go(
            Role::BlockBegin,
            State {
                place: Place::Locals,
                context: Context::Local,
                bodies: s.bodies,
                blocks: 1,
            },
        ),
        _ => Next::Wrong,
    }
}

/// The item goes on in so many blocks.
fn in_block(role: Role, place: Place, blocks: u64) -> Next
    ensures { result ≡ steps.go role place Local 0 blocks }
{
    Next::Go(
        role,
        State {
            place,
            context: Context::Local,
            bodies: 0,
            blocks,
        },
    )
}

/// The `}` of a block: of the function where one block is open.
fn closing(blocks: u64) -> Next
    ensures { result ≡ steps.closing blocks }
{
    if blocks <= 1 {
        Next::Done(Role::FunctionEnd)
    } else {
        in_block(Role::BlockEnd, Place::Statements, blocks - 1)
    }
}

/// Behind a statement of a block.
pub(crate) fn statements_step(t: Kind, s: State) -> Next
    requires { s.blocks + 1 < 2 ^ 64 }
    ensures { result ≡ steps.statements_step t s.context s.bodies s.blocks }
{
    match t {
        Kind::Semi => in_block(Role::Empty, Place::Statements, s.blocks),
        Kind::OpenBrace => in_block(Role::BlockBegin, Place::Locals, s.blocks + 1),
        Kind::CloseBrace => closing(s.blocks),
        _ => Next::Wrong,
    }
}

/// In a block, where a local may begin; a statement or the `}` may stand there too.
pub(crate) fn locals_step(t: Kind, s: State) -> Next
    requires { s.blocks + 1 < 2 ^ 64 }
    ensures { result ≡ steps.locals_step t s.context s.bodies s.blocks }
{
    match t {
        Kind::Semi => statements_step(Kind::Semi, s),
        Kind::OpenBrace => statements_step(Kind::OpenBrace, s),
        Kind::CloseBrace => statements_step(Kind::CloseBrace, s),
        _ => specifier_step(t, s),
    }
}
