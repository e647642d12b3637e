//! What the definition of merged entries says of any entries.

ghost use Rattle.std.specs.Prelude.{ℕ, List};
ghost use Rattle.nlist_codec.specs.declared.named.Named.{Named};
ghost use Rattle.type_graph.specs.declared.world.World.{World};
ghost use Rattle.type_graph.specs.Worlds.{IsWorldOf};
ghost use Rattle.bincl_match.specs.declared.range.Grouping.{Grouping};
ghost use Rattle.bincl_match.specs.declared.range.RangeOf.{RangeOf};
ghost use Rattle.bincl_match.specs.Merging.{IsMerging};
ghost use Rattle.bincl_match.specs.Ranges.{AreRanges};
ghost use Rattle.unit_index.specs.Expanding.{IsExpanded};
ghost use Rattle.header_merge.specs.Merged.{merged};

use bincl_match::one_ranges;
use stab_grammar::shape_laws;
use stab_units::{changed_law, one_units};

/// An image in which header ranges are merged, by whatever rule, is the world that its entries had before: each N_EXCL of it takes over
/// the symbols of the range that is kept, with the numbers that its own unit has for their files, and these are the symbols that it had
/// itself. Its headers have one owner each, and neither bodies nor externals change.
pub fn merged_world()
    ensures world { (text_end : ℕ) (entries : List Named) (ranges : List RangeOf) (g : Grouping) (world : World) → AreRanges text_end entries ranges → IsMerging ranges g
        → IsWorldOf text_end entries world → IsExpanded text_end (merged g entries) world }
{
    one_units();
    one_ranges();
    shape_laws();
    changed_law();
}
