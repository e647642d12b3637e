ghost use Rattle.std.specs.Prelude.{◌≡◌, ◌≢◌, ◌<◌, ◌^◌, ◌++◌, Bool, List, ℕ, Some, All, AllPairs, Contains};
ghost use Rattle.strtab.specs.StringTable.{name_in, HasNoZero, HasOwnLength};
ghost use Rattle.st_base.specs.Faults.{fault_at};
ghost use Rattle.st_base.specs.declared.fault.Fault.{Fault};
ghost use Rattle.st_base.specs.declared.fault.Refused.TheVariants as refused;
ghost use Rattle.st_base.specs.declared.sizes.TheConstants.{WORD_SIZE, FILE_LIMIT};
ghost use Rattle.strtab.specs.Names.{size_of, table_of, offset_of, first_uses, AreNames, RefusesSize};

/// In the table of a list of names each is found at its offset, no two share one, and the table begins
/// with its own length, as `check_table` wants it.
pub fn names_are_found()
    ensures found { (big : Bool) (names : List (List ℕ)) → AreNames names → (name : List ℕ) → Contains names name
        → name_in (table_of big names) (offset_of names name) ≡ Some name }
    ensures apart { (names : List (List ℕ)) → AreNames names
        → AllPairs (λ first later. offset_of names first ≢ offset_of names later) names }
    ensures counted { (big : Bool) (names : List (List ℕ)) → size_of names < 2 ^ 32 → HasOwnLength big (table_of big names) }
{}

/// Whatever names without zero bytes were used, the names of the table are lawful, each used name is found
/// at its offset, the empty one too, and a name keeps its offset through all later uses.
pub fn uses_are_found()
    ensures lawful { (uses : List (List ℕ)) → All HasNoZero uses → AreNames (first_uses uses) }
    ensures found { (big : Bool) (uses : List (List ℕ)) → All HasNoZero uses → (name : List ℕ) → Contains uses name
        → name_in (table_of big (first_uses uses)) (offset_of (first_uses uses) name) ≡ Some name }
    ensures stays { (uses later : List (List ℕ)) (name : List ℕ) → Contains uses name
        → offset_of (first_uses (uses ++ later)) name ≡ offset_of (first_uses uses) name }
{}

/// The bytes of the length word, and the most bytes of a table; a table is refused only past that limit, which is the fault's place.
pub fn limits_are()
    ensures word_size { WORD_SIZE ≡ 4 }
    ensures limit { FILE_LIMIT ≡ 134217728 }
    ensures refused { (size : ℕ) (why : Fault) → RefusesSize size (refused.At why)
        → ((134217728 < size) × (why ≡ fault_at 94 134217728)) }
{}
