ghost use Rattle.std.specs.Prelude.{◌≡◌};
ghost use Rattle.scope_lines.specs.Roles as spec;

use stab_codes::{N_FUN, N_LBRAC, N_RBRAC};
use stab_grammar::Descriptor;
use stab_units::{Item, ItemText};

/// What an item is to scopes; of a function and of a bracket its value.
#[derive(Clone, Copy, Debug, Drop, PartialEq, Eq)]
pub enum Role {
    /// An N_FUN with descriptor `f` or `F`.
    Function(u32),
    /// An N_LBRAC.
    Opens(u32),
    /// An N_RBRAC.
    Closes(u32),
    /// Descriptor `p`, `P`, `a` or `v`.
    Parameter,
    /// No descriptor, `r` or `V`.
    Local,
    /// Descriptor `G` or `S`: an item of the whole unit.
    Static,
    /// All else, and whatever carries no symbol.
    Other,
}

/// The role of a symbol by its descriptor; `is_fun` says that its code is N_FUN. Takes no memory.
fn symbol_role(descriptor: Descriptor, is_fun: bool, value: u32) -> Role
    ensures { result ≡ spec.symbol_role descriptor is_fun value }
{
    match descriptor {
        Descriptor::StaticFun | Descriptor::GlobalFun => {
            if is_fun {
                Role::Function(value)
            } else {
                Role::Other
            }
        }
        Descriptor::Param | Descriptor::RegParam | Descriptor::RefRegParam | Descriptor::RefParam =>
            Role::Parameter,
        Descriptor::Stack | Descriptor::Register | Descriptor::ProcStatic => Role::Local,
        Descriptor::Global | Descriptor::FileStatic => Role::Static,
        Descriptor::Typedef | Descriptor::Tag | Descriptor::TagTypedef => Role::Other,
    }
}

/// The role of an item: brackets by their code, all else by its symbol. Takes no memory. After "The stabs debug format".
pub(crate) fn item_role(item: &Item) -> Role
    ensures { result ≡ spec.role_of item.now }
{
    if item.kind == N_LBRAC {
        return Role::Opens(item.value);
    }
    if item.kind == N_RBRAC {
        return Role::Closes(item.value);
    }
    match &item.text {
        ItemText::Symbol(symbol) => {
            symbol_role(symbol.descriptor, item.kind == N_FUN, item.value)
        }
        ItemText::Raw(_) => Role::Other,
    }
}
