ghost use Rattle.std.specs.Prelude.{◌≡◌, ◌∷◌, ℕ, List, Result};
ghost use Rattle.st_base.specs.declared.fault.Fault.{Fault};
ghost use Rattle.cdecl_producer.specs.declared.source.Source.{Source};
ghost use Rattle.cdecl_producer.specs.Files.{Meaning};
ghost use Rattle.cdecl_producer.specs.Outcomes.{OneMeaning, Produces};

/// (law) Where items in front of the same tokens mean the same, given files come to one outcome at most, the text of a unit or the first
/// fault; and to one at least where there is a main source.
pub fn outcome_laws()
    ensures one { (means : Meaning) → OneMeaning means → (files : List Source) (o p : Result (List ℕ) Fault) → Produces means files o → Produces means files p → o ≡ p }
    ensures some { (means : Meaning) (main : Source) (headers : List Source) → (o : Result (List ℕ) Fault) × Produces means (main ∷ headers) o }
{}
