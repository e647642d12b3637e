ghost use Rattle.std.specs.Prelude.{◌≡◌, ◌↔◌, ◌⊎◌, ℕ, ◌<◌, ◌^◌, Bool, List, [], length, All, None, Some};
ghost use Rattle.st_base.specs.declared.fault.Fault.{Fault as FaultValue};
ghost use Rattle.st_base.specs.declared.fault.Refused.TheVariants as refused;
ghost use Rattle.nlist_codec.specs.declared.named.Named.{Named as NamedValue};
ghost use Rattle.reloc.specs.declared.reloc.Reloc.{Reloc as RelocValue};
ghost use Rattle.aout_link.specs.Sources.{Source as SourceValue, IsLawful, HasUnits};
ghost use Rattle.aout_link.specs.declared.moves.Moves.{Moves as MovesValue};
ghost use Rattle.aout_link.specs.declared.definitions.Known.{Known as KnownValue};
ghost use Rattle.aout_link.specs.declared.moves.Starts.{Starts as StartsValue};
ghost use Rattle.st_base.specs.Multiples.{aligned};
ghost use Rattle.aout_link.specs.Moves.{totals_of, all_moves, starts_of};
ghost use Rattle.aout_link.specs.Groups.{InGroups, AreWords, MovesAtOnce, EntriesAtOnce};
ghost use Rattle.aout_link.specs.Placing.{Frame as FrameValue};
ghost use Rattle.aout_link.specs.Refusals.{list_fault, first_that, twice_fault, twice_in, undefined_fault, undefined_in, relocs_fault, relocs_in};
ghost use Rattle.aout_link.specs.Accepted.{Accepted, HasExactCommons};
ghost use Rattle.aout_link.specs.FirstOfList as first;
ghost use Rattle.aout_link.specs.FirstOfList.{HasFirst, stages, stage_fault, difference, object_twice, object_undefined, object_relocs, reloc_fault};
ghost use Rattle.aout_link.specs.NameTables.{entries_of};
ghost use Rattle.aout_link.specs.Linking.{IsLinked, RefusesLink};
ghost use Rattle.aout_link.specs.declared.linking.Image.{Image as ImageValue};
ghost use Rattle.bincl_match.specs.declared.mode.Mode.{Mode};

use bincl_match::{merging_laws, one_alone, one_classes, one_ranges};
use header_merge::merged_world;
use stab_units::{joined_law, one_units};

/// A list of objects has no fault exactly where it is accepted: where each condition holds of each object, entry and relocation, told
/// by what stands before it. The places of commons of such a list are sums that no remainder cuts.
pub fn accepted_laws()
    ensures accepted_exactly { (base : ℕ) (os : List SourceValue) → (list_fault base os ≡ None) ↔ Accepted base os }
    ensures exact_commons { (base : ℕ) (os : List SourceValue) → Accepted base os → HasExactCommons base os }
{}

/// The fault of a list is that of the first stage that has one; the fault of a stage is that of the first object that has one; and the
/// fault of an object is that of its first entry or relocation that has one, each told by what stands before it.
pub fn first_laws()
    ensures stages { (base : ℕ) (os : List SourceValue) (fault : FaultValue)
        → (list_fault base os ≡ Some fault) ↔ HasFirst stage_fault (stages base os) fault }
    ensures alike { (differs : SourceValue → Bool) (number : ℕ) (os : List SourceValue) (fault : FaultValue)
        → (first_that differs number 0 os ≡ Some fault) ↔ HasFirst (difference differs number) os fault }
    ensures twice { (os : List SourceValue) (fault : FaultValue) → (twice_in [] 0 os ≡ Some fault) ↔ HasFirst object_twice os fault }
    ensures undefined { (table : List (List ℕ × KnownValue)) (os : List SourceValue) (fault : FaultValue)
        → (undefined_in table 0 os ≡ Some fault) ↔ HasFirst (object_undefined table) os fault }
    ensures relocs { (table : List (List ℕ × KnownValue)) (base : ℕ) (os : List SourceValue) (fault : FaultValue)
        → (relocs_in table 0 (all_moves base os) os ≡ Some fault) ↔ HasFirst (object_relocs table (starts_of base os)) os fault }
    ensures entry_twice { (earlier : List NamedValue) (k : ℕ) (ns : List NamedValue) (fault : FaultValue)
        → (twice_fault earlier k 0 ns ≡ Some fault) ↔ HasFirst (first.entry_twice earlier k) ns fault }
    ensures entry_undefined { (table : List (List ℕ × KnownValue)) (k : ℕ) (ns : List NamedValue) (fault : FaultValue)
        → (undefined_fault table k 0 ns ≡ Some fault) ↔ HasFirst (first.entry_undefined table k) ns fault }
    ensures reloc { (big : Bool) (k i : ℕ) (f : FrameValue) (segment : List ℕ) (rs : List RelocValue) (fault : FaultValue)
        → (relocs_fault big k i f segment rs ≡ Some fault) ↔ HasFirst (reloc_fault big k i f segment) rs fault }
{}

/// A list of objects is placed group by group: sums add up, and what is made of two groups stands one behind the other. A group that
/// is placed by itself, and then as one object, moves as its objects do at once, and it is not padded again.
pub fn group_laws()
    ensures together { (xs ys : List SourceValue) → InGroups xs ys }
    ensures moves { (base : ℕ) (group : List SourceValue) (s : StartsValue) (out before : List SourceValue) (o : SourceValue)
        → AreWords (starts_of base group) → MovesAtOnce base group s out before o }
    ensures entries { (base : ℕ) (group : List SourceValue) (s : StartsValue) (out : List SourceValue)
        → AreWords (starts_of base group) → EntriesAtOnce base group s out }
    ensures sizes { (os : List SourceValue) → aligned (totals_of os).text ≡ (totals_of os).text }
{}

/// A list of objects that have units, with fewer than 2^32 entries together, either has exactly one image, for which no step is taken, or
/// has exactly one fault that it is refused for. Out of memory is a refusal of any list.
pub fn one_link()
    ensures some { (mode : Mode) (base : ℕ) (os : List SourceValue) (old : ℕ) → All IsLawful os → All HasUnits os → length (entries_of os) < 2 ^ 32
        → ((new : ℕ) × (image : ImageValue) × IsLinked mode base os old new image) ⊎ ((f : FaultValue) × RefusesLink mode base os (refused.At f)) }
    ensures one_image { (mode : Mode) (base : ℕ) (os : List SourceValue) (old new other : ℕ) (image second : ImageValue)
        → IsLinked mode base os old new image → IsLinked mode base os old other second → image ≡ second }
    ensures one_count { (mode : Mode) (base : ℕ) (os : List SourceValue) (old new other : ℕ) (image second : ImageValue)
        → IsLinked mode base os old new image → IsLinked mode base os old other second → new ≡ other }
    ensures one_fault { (mode : Mode) (base : ℕ) (os : List SourceValue) (f g : FaultValue) → RefusesLink mode base os (refused.At f) → RefusesLink mode base os (refused.At g) → f ≡ g }
    ensures not_both { (mode : Mode) (base : ℕ) (os : List SourceValue) (old new : ℕ) (image : ImageValue) (f : FaultValue)
        → IsLinked mode base os old new image → RefusesLink mode base os (refused.At f) → ⊥ }
{
    joined_law();
    one_units();
    one_ranges();
    one_alone();
    one_classes();
    merging_laws();
    merged_world();
}
