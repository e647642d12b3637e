//! What the definition of ranges says of any entries, and that of a grouping of any ranges.

ghost use Rattle.std.specs.Prelude.{◌≡◌, ◌⊎◌, ◌<◌, ◌^◌, ◌++◌, [], ℕ, List, length, Some, slice_get};
ghost use Rattle.st_base.specs.declared.fault.Fault.{Fault};
ghost use Rattle.nlist_codec.specs.declared.named.Named.{Named};
ghost use Rattle.stab_units.specs.Joining.{AreAlike};
ghost use Rattle.stab_units.specs.ObjectUnits.{UnitsFault};
ghost use Rattle.bincl_match.specs.declared.range.Grouping.{Grouping};
ghost use Rattle.bincl_match.specs.declared.range.RangeOf.{RangeOf};
ghost use Rattle.bincl_match.specs.Instances.{IsAlone};
ghost use Rattle.bincl_match.specs.Lawful.{IsLawful};
ghost use Rattle.bincl_match.specs.Matching.{Among, AreClasses, InOneClass, IsMatching};
ghost use Rattle.bincl_match.specs.Merging.{IsMerging};
ghost use Rattle.bincl_match.specs.Ranges.{AreFound, AreFoundButUnits, AreRanges};

use stab_grammar::one_symbol;
use stab_units::{header_units_law, joined_law, one_units};

/// The entries of an object either have exactly one list of ranges, which is lawful, or have a fault that keeps them from being units.
pub fn one_ranges()
    ensures some { (text_end : ℕ) (entries : List Named) → ((ranges : List RangeOf) × AreRanges text_end entries ranges) ⊎ ((f : Fault) × UnitsFault text_end entries f) }
    ensures one { (text_end : ℕ) (entries : List Named) (rs qs : List RangeOf) → AreRanges text_end entries rs → AreRanges text_end entries qs → rs ≡ qs }
    ensures lawful { (text_end : ℕ) (entries : List Named) (ranges : List RangeOf) → AreRanges text_end entries ranges → IsLawful ranges }
    ensures not_both { (text_end : ℕ) (entries : List Named) (ranges : List RangeOf) (f : Fault) → AreRanges text_end entries ranges → UnitsFault text_end entries f → ⊥ }
{
    one_symbol();
    one_units();
}

/// Entries have at most one list of ranges as they are found. The ranges of two lists of entries, one of which stands after the other,
/// are those of the two, but for the numbers of units; entries that are alike have the same, wherever text ends, and no entries have
/// none. So a list that is put together of many needs no look at a string to be known.
pub fn found_laws()
    ensures one { (text_end : ℕ) (entries : List Named) (xs ys : List RangeOf) → AreFound text_end entries xs → AreFound text_end entries ys → xs ≡ ys }
    ensures more { (first second end : ℕ) (es fs : List Named) (xs ys : List RangeOf) → AreFoundButUnits first es xs → AreFoundButUnits second fs ys → AreFoundButUnits end (es ++ fs) (xs ++ ys) }
    ensures like { (first end : ℕ) (es fs : List Named) (xs : List RangeOf) → AreAlike es fs → AreFoundButUnits first es xs → AreFoundButUnits end fs xs }
    ensures none { (end : ℕ) → AreFoundButUnits end [] [] }
{
    one_symbol();
    one_units();
    joined_law();
    header_units_law();
}

/// Every range kept: there is exactly one grouping.
pub fn one_alone()
    ensures some { (ranges : List RangeOf) → length ranges < 2 ^ 32 → (grouping : Grouping) × IsAlone ranges grouping }
    ensures one { (ranges : List RangeOf) (grouping other : Grouping) → IsAlone ranges grouping → IsAlone ranges other → grouping ≡ other }
{}

/// Two matchings together are one, so there is a largest one; its classes divide the ranges, and no class has two ranges of a unit.
pub fn matching_laws()
    ensures union { (ranges : List RangeOf) (pairs more : List (ℕ × ℕ)) → IsMatching ranges (Among pairs) → IsMatching ranges (Among more) → IsMatching ranges (Among (pairs ++ more)) }
    ensures reflexive { (ranges : List RangeOf) (i : ℕ) → InOneClass ranges i i }
    ensures symmetric { (ranges : List RangeOf) (i j : ℕ) → InOneClass ranges i j → InOneClass ranges j i }
    ensures transitive { (ranges : List RangeOf) → IsLawful ranges → (i j k : ℕ) → InOneClass ranges i j → InOneClass ranges j k → InOneClass ranges i k }
    ensures one_of_a_unit { (ranges : List RangeOf) (i j : ℕ) (x y : RangeOf) → slice_get ranges i ≡ Some x → slice_get ranges j ≡ Some y → x.unit ≡ y.unit → InOneClass ranges i j → i ≡ j }
{}

/// By classes: there is exactly one grouping.
pub fn one_classes()
    ensures some { (ranges : List RangeOf) → IsLawful ranges → length ranges < 2 ^ 32 → (grouping : Grouping) × AreClasses ranges grouping }
    ensures one { (ranges : List RangeOf) (grouping other : Grouping) → AreClasses ranges grouping → AreClasses ranges other → grouping ≡ other }
{}

/// The classes of ranges are a merging, and so is every range by itself.
pub fn merging_laws()
    ensures classes { (ranges : List RangeOf) (grouping : Grouping) → IsLawful ranges → AreClasses ranges grouping → IsMerging ranges grouping }
    ensures alone { (ranges : List RangeOf) (grouping : Grouping) → IsLawful ranges → IsAlone ranges grouping → IsMerging ranges grouping }
{}
