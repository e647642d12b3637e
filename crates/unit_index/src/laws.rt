//! What the definitions of an image's index and world say of any entries.

ghost use Rattle.std.specs.Prelude.{◌≡◌, ◌⊎◌, ◌↔◌, ℕ, List, None, Option};
ghost use Rattle.st_base.specs.declared.fault.Fault.{Fault};
ghost use Rattle.nlist_codec.specs.declared.named.Named.{Named};
ghost use Rattle.unit_outlines.specs.declared.outline_types.Marks.TheVariants.{Object};
ghost use Rattle.unit_outlines.specs.Outlines.{OutlineFault};
ghost use Rattle.stab_units.specs.ObjectUnits.{UnitsFault};
ghost use Rattle.type_graph.specs.declared.world.World.{World};
ghost use Rattle.type_graph.specs.Worlds.{IsWorldOf};
ghost use Rattle.unit_index.specs.declared.owner.TheConstants.{NO_FILE};
ghost use Rattle.unit_index.specs.Expanding.{IndexFault, IsExpanded, ExpandFault, ExpandFaultAfter};

use stab_units::{one_outline, one_spans};

/// What the number of no file is: definitions cite the constant, so that a changed constant would change what they say.
pub fn limits_are()
    ensures no_file { NO_FILE ≡ 65536 }
{}

/// The entries of an image either have no fault of an index, or exactly one that is reported.
pub fn one_index()
    ensures some { (text_end : ℕ) (entries : List Named) → (f : Option Fault) × IndexFault text_end entries f }
    ensures one { (text_end : ℕ) (entries : List Named) (f g : Option Fault) → IndexFault text_end entries f → IndexFault text_end entries g → f ≡ g }
{
    one_outline();
}

/// The entries of an image either are exactly one world, or have exactly one fault that is reported, up to which exactly one number of
/// steps is taken.
pub fn one_expansion()
    ensures some { (text_end : ℕ) (entries : List Named) → ((world : World) × IsExpanded text_end entries world) ⊎ ((f : Fault) × ExpandFault text_end entries f) }
    ensures one { (text_end : ℕ) (entries : List Named) (v w : World) → IsExpanded text_end entries v → IsExpanded text_end entries w → v ≡ w }
    ensures one_fault { (text_end : ℕ) (entries : List Named) (f g : Fault) → ExpandFault text_end entries f → ExpandFault text_end entries g → f ≡ g }
    ensures not_both { (text_end : ℕ) (entries : List Named) (world : World) (f : Fault) → IsExpanded text_end entries world → ExpandFault text_end entries f → ⊥ }
    ensures counted { (text_end : ℕ) (entries : List Named) (f : Fault) (old : ℕ) → ExpandFault text_end entries f → (new : ℕ) × ExpandFaultAfter text_end entries f old new }
    ensures one_count { (text_end : ℕ) (entries : List Named) (f g : Fault) (old m n : ℕ) → ExpandFaultAfter text_end entries f old m → ExpandFaultAfter text_end entries g old n → m ≡ n }
{
    one_index();
    one_spans();
}

/// Entries that may be those of an object, in which no header is excluded, are the same world as an object and as an image, and have
/// the same fault of a string.
pub fn unexcluded_law()
    ensures world { (text_end : ℕ) (entries : List Named) → OutlineFault Object entries None → (world : World) → IsExpanded text_end entries world ↔ IsWorldOf text_end entries world }
    ensures fault { (text_end : ℕ) (entries : List Named) → OutlineFault Object entries None → (f : Fault) → UnitsFault text_end entries f ↔ ExpandFault text_end entries f }
{
    one_outline();
}
