ghost use Rattle.std.specs.Prelude.{◌≡◌};
ghost use Rattle.stab_units.specs.Units.{is_type_symbol};

use stab_grammar::Descriptor;

/// Whether a symbol of this descriptor names a type: `t`, `T` or `Tt`. Takes no memory. After "The stabs debug format", on types.
pub fn is_type(descriptor: Descriptor) -> bool
    ensures { result ≡ is_type_symbol descriptor }
{
    match descriptor {
        Descriptor::Typedef | Descriptor::Tag | Descriptor::TagTypedef => true,
        _ => false,
    }
}
