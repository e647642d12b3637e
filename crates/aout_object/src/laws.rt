ghost use Rattle.std.specs.Prelude.{◌≡◌, ◌⊎◌, ◌||◌, nat_le, List, ℕ, None};
ghost use Rattle.st_base.specs.Number.{IsBytes};
ghost use Rattle.st_base.specs.declared.fault.Fault.{Fault};
ghost use Rattle.st_base.specs.declared.sizes.TheConstants.{FILE_LIMIT, GREATEST_ADDRESS};
ghost use Rattle.aout_object.specs.Objects.{Contents, ObjectSpells, is_accepted_kind};
ghost use Rattle.aout_object.specs.Checks.{FileFault};

/// A file spells one object, an object has one file, and a file has either an object or a fault.
///
/// So encoding what was decoded gives the file, and decoding what was encoded gives the object: each is spelled by the other.
pub fn object_laws()
    ensures one_object { (first other : Contents) (bytes : List ℕ) → IsBytes bytes → ObjectSpells first bytes → ObjectSpells other bytes → first ≡ other }
    ensures one_file { (object : Contents) (first other : List ℕ) → ObjectSpells object first → ObjectSpells object other → first ≡ other }
    ensures one_fault { (bytes : List ℕ) (first other : Fault) → FileFault bytes first → FileFault bytes other → first ≡ other }
    ensures object_or_fault { (bytes : List ℕ) → IsBytes bytes
        → ((object : Contents) × ObjectSpells object bytes) ⊎ ((fault : Fault) × FileFault bytes fault) }
    ensures not_both { (bytes : List ℕ) (object : Contents) (fault : Fault) → IsBytes bytes → ObjectSpells object bytes → FileFault bytes fault → ⊥ }
{}

/// The limits of an object, and the kinds of entries that it can have.
pub fn limits_are()
    ensures file { FILE_LIMIT ≡ 134217728 }
    ensures addresses { GREATEST_ADDRESS ≡ 4294967295 }
    ensures kinds { (kind : ℕ) → is_accepted_kind kind ≡ (nat_le 32 kind || nat_le kind 9) }
{}
