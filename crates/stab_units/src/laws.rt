//! What the definitions of units say of any entries.

ghost use Rattle.std.specs.Prelude.{◌≡◌, ◌≤◌, ◌⊎◌, ◌++◌, ℕ, zero, List, [], None, Option, MatchOption, length, map};
ghost use Rattle.st_base.specs.declared.fault.Fault.{Fault};
ghost use Rattle.nlist_codec.specs.declared.named.Named.{Named};
ghost use Rattle.unit_outlines.specs.declared.outline_types.Marks.{Marks};
ghost use Rattle.unit_outlines.specs.declared.outline_types.Marks.TheVariants.{Image};
ghost use Rattle.unit_outlines.specs.declared.outline_types.UnitSpan.{UnitSpan};
ghost use Rattle.stab_units.specs.declared.unit.Unit.{Unit};
ghost use Rattle.unit_outlines.specs.Outlines.{OutlineFault, units_of};
ghost use Rattle.stab_units.specs.Units.{AreUnitsOf, IsUnitOf, SpansFault, SpansFaultAfter, UnitFault, UnitFaultAfter};
ghost use Rattle.stab_units.specs.ObjectUnits.{AreUnits, UnitsFault, UnitsFaultAfter};
ghost use Rattle.stab_units.specs.Forgetting.{forgotten};
ghost use Rattle.stab_units.specs.Joining.{AreAlike};
ghost use Rattle.stab_units.specs.Changing.{Change, changed, LocalsGo, AreSpansChanged};
ghost use Rattle.stab_units.specs.HeaderUnits.{header_units};

use stab_grammar::one_symbol;

/// A span is that of exactly one unit, or its strings have exactly one first fault, up to which exactly one number of steps is taken.
pub fn one_unit()
    ensures some { (entries : List Named) (span : UnitSpan) → ((unit : Unit) × IsUnitOf entries span unit) ⊎ ((f : Fault) × UnitFault entries span f) }
    ensures one { (entries : List Named) (span : UnitSpan) (u v : Unit) → IsUnitOf entries span u → IsUnitOf entries span v → u ≡ v }
    ensures one_fault { (entries : List Named) (span : UnitSpan) (f g : Fault) → UnitFault entries span f → UnitFault entries span g → f ≡ g }
    ensures not_both { (entries : List Named) (span : UnitSpan) (unit : Unit) (f : Fault) → IsUnitOf entries span unit → UnitFault entries span f → ⊥ }
    ensures counted { (entries : List Named) (span : UnitSpan) (f : Fault) (old : ℕ) → UnitFault entries span f → (new : ℕ) × UnitFaultAfter entries span f old new }
    ensures one_count { (entries : List Named) (span : UnitSpan) (f g : Fault) (old m n : ℕ) → UnitFaultAfter entries span f old m → UnitFaultAfter entries span g old n → m ≡ n }
{
    one_symbol();
}

/// Spans are those of exactly one list of units, or their strings have exactly one first fault, up to which exactly one number of steps is
/// taken.
pub fn one_spans()
    ensures some { (entries : List Named) (spans : List UnitSpan) → ((units : List Unit) × AreUnitsOf entries spans units) ⊎ ((f : Fault) × SpansFault entries spans f) }
    ensures one { (entries : List Named) (spans : List UnitSpan) (us vs : List Unit) → AreUnitsOf entries spans us → AreUnitsOf entries spans vs → us ≡ vs }
    ensures one_fault { (entries : List Named) (spans : List UnitSpan) (f g : Fault) → SpansFault entries spans f → SpansFault entries spans g → f ≡ g }
    ensures not_both { (entries : List Named) (spans : List UnitSpan) (units : List Unit) (f : Fault) → AreUnitsOf entries spans units → SpansFault entries spans f → ⊥ }
    ensures counted { (entries : List Named) (spans : List UnitSpan) (f : Fault) (old : ℕ) → SpansFault entries spans f → (new : ℕ) × SpansFaultAfter entries spans f old new }
    ensures one_count { (entries : List Named) (spans : List UnitSpan) (f g : Fault) (old m n : ℕ) → SpansFaultAfter entries spans f old m → SpansFaultAfter entries spans g old n → m ≡ n }
{
    one_symbol();
}

/// The entries of an object either are exactly one list of units, or have exactly one fault that is reported, up to which exactly one number
/// of steps is taken.
pub fn one_units()
    ensures some { (text_end : ℕ) (entries : List Named) → ((units : List Unit) × AreUnits text_end entries units) ⊎ ((f : Fault) × UnitsFault text_end entries f) }
    ensures one { (text_end : ℕ) (entries : List Named) (us vs : List Unit) → AreUnits text_end entries us → AreUnits text_end entries vs → us ≡ vs }
    ensures one_fault { (text_end : ℕ) (entries : List Named) (f g : Fault) → UnitsFault text_end entries f → UnitsFault text_end entries g → f ≡ g }
    ensures not_both { (text_end : ℕ) (entries : List Named) (units : List Unit) (f : Fault) → AreUnits text_end entries units → UnitsFault text_end entries f → ⊥ }
    ensures counted { (text_end : ℕ) (entries : List Named) (f : Fault) (old : ℕ) → UnitsFault text_end entries f → (new : ℕ) × UnitsFaultAfter text_end entries f old new }
    ensures one_count { (text_end : ℕ) (entries : List Named) (f g : Fault) (old m n : ℕ) → UnitsFaultAfter text_end entries f old m → UnitsFaultAfter text_end entries g old n → m ≡ n }
{
    one_symbol();
}

/// A list of entries has no more units than entries.
pub fn few_units()
    ensures { (text_end : ℕ) (entries : List Named) (units : List Unit) → AreUnits text_end entries units → length units ≤ length entries }
{}

/// The value of an N_BINCL stands in no unit, and no fault hangs on it: lists of entries that differ in values of N_BINCL alone have the
/// same units and the same faults.
pub fn header_values_law()
    ensures units { (text_end : ℕ) (es fs : List Named) (units : List Unit) → map forgotten es ≡ map forgotten fs → AreUnits text_end es units → AreUnits text_end fs units }
    ensures faults { (text_end : ℕ) (es fs : List Named) (f : Fault) → map forgotten es ≡ map forgotten fs → UnitsFault text_end es f → UnitsFault text_end fs f }
{}

/// Lists of entries that each have units have units where one stands after the other, and so have entries that are alike: a linker
/// gives them other values, and may give one that is no stab another kind that is none. Text may end anywhere. Outlines without a
/// fault have none there; no entries have no units.
///
/// The units need not be those of the parts: an N_SO whose name ends in `/` begins a unit at the end of a list, and names a directory
/// before one that begins with a source.
pub fn joined_law()
    ensures outline { (marks : Marks) (es fs : List Named) → OutlineFault marks es None → OutlineFault marks fs None → OutlineFault marks (es ++ fs) None }
    ensures joined { (end other text_end : ℕ) (es fs : List Named) (us vs : List Unit) → AreUnits end es us → AreUnits other fs vs → (units : List Unit) × AreUnits text_end (es ++ fs) units }
    ensures none { (text_end : ℕ) → AreUnits text_end [] [] }
    ensures alike { (end text_end : ℕ) (es fs : List Named) (us : List Unit) → AreUnits end es us → AreAlike es fs → (units : List Unit) × AreUnits text_end fs units }
{}

/// A linker that takes header ranges out of a list of entries leaves an outline, as long as of the stabs of units only N_LSYM stabs go:
/// the changed list is that of an image without a fault, its units are those of the list, in order, with changed marks of headers, and
/// their stabs that are left are read as they were. The changed list is no longer than the list.
pub fn changed_law()
    ensures outline { (marks : Marks) (c : Change) (text_end : ℕ) (entries : List Named) → OutlineFault marks entries None → LocalsGo c entries 0 (units_of text_end entries) → OutlineFault Image (changed c entries) None }
    ensures spans { (marks : Marks) (c : Change) (text_end : ℕ) (entries : List Named) → OutlineFault marks entries None → LocalsGo c entries 0 (units_of text_end entries) → AreSpansChanged c entries 0 (units_of text_end entries) (units_of text_end (changed c entries)) }
    ensures no_more { (c : Change) (entries : List Named) → length (changed c entries) ≤ length entries }
{}

/// The units of a list that have headers, as far as their headers go, are those of its parts where it is two lists one after the other, and are
/// the same for entries that are alike. A unit without headers may become a directory, and entries that are no stabs belong to none.
pub fn header_units_law()
    ensures joined { (marks : Marks) (end first second : ℕ) (es fs : List Named) → OutlineFault marks es None → OutlineFault marks fs None → header_units end (es ++ fs) ≡ header_units first es ++ header_units second fs }
    ensures alike { (end other : ℕ) (es fs : List Named) → AreAlike es fs → header_units end es ≡ header_units other fs }
{}
