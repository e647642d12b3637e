//! What holds of all stab strings: of their symbols and faults, and of shapes and files.

ghost use Rattle.std.specs.Prelude.{◌≡◌, ◌⊎◌, ◌↔◌, List, ℕ, map};
ghost use Rattle.st_base.specs.declared.fault.Fault.{Fault};
ghost use Rattle.readers.specs.declared.fault.TextFault.{TextFault};
ghost use Rattle.readers.specs.TextFaults.{place_of};
ghost use Rattle.stab_symbols.specs.declared.tree.Symbol.{Symbol};
ghost use Rattle.stab_symbols.specs.Shape.{ShapedSymbol};
ghost use Rattle.stab_symbols.specs.Files.{files_of, shape_of, with_files, file_0, DifferInFiles};
ghost use Rattle.stab_grammar.specs.StringFaults.{IsSpelling, HasStringFault, IsStringFault};

/// Two faults of a string never have one place.
pub fn one_place()
    ensures { (text : List ℕ) (f g : TextFault) → HasStringFault text f → HasStringFault text g → place_of f ≡ place_of g → f ≡ g }
{}

/// A string either spells exactly one symbol, or has exactly one fault.
pub fn one_symbol()
    ensures some { (text : List ℕ) → ((s : Symbol) × IsSpelling s text) ⊎ ((f : Fault) × IsStringFault text f) }
    ensures one { (text : List ℕ) (s t : Symbol) → IsSpelling s text → IsSpelling t text → s ≡ t }
    ensures one_fault { (text : List ℕ) (f g : Fault) → IsStringFault text f → IsStringFault text g → f ≡ g }
    ensures not_both { (text : List ℕ) (s : Symbol) (f : Fault) → IsSpelling s text → IsStringFault text f → ⊥ }
{}

/// What the shape and the files tell of a symbol. Two shaped symbols have equal shapes exactly where they differ at most in the files
/// of pairs. Any two symbols that differ at most there and have the same files are one. Other files, whatever function gives
/// them, keep the shape and all but the files, and stand in the order of the old ones.
pub fn shape_laws()
    ensures only_files { (s t : Symbol) → ShapedSymbol s → ShapedSymbol t → (shape_of s ≡ shape_of t) ↔ DifferInFiles s t }
    ensures known { (s t : Symbol) → with_files file_0 s ≡ with_files file_0 t → files_of s ≡ files_of t → s ≡ t }
    ensures determined { (s t : Symbol) → ShapedSymbol s → ShapedSymbol t → shape_of s ≡ shape_of t → files_of s ≡ files_of t → s ≡ t }
    ensures again { (change : ℕ → ℕ) (s : Symbol) → with_files file_0 (with_files change s) ≡ with_files file_0 s }
    ensures shape_kept { (change : ℕ → ℕ) (s : Symbol) → shape_of (with_files change s) ≡ shape_of s }
    ensures files_new { (change : ℕ → ℕ) (s : Symbol) → files_of (with_files change s) ≡ map change (files_of s) }
{}
