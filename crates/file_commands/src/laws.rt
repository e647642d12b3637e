//! What the definitions determine: words have exactly one outcome; and what linking and asking come to, over lists of objects.

ghost use Rattle.std.specs.Prelude.{◌≡◌, ℕ, List, Some};
ghost use Rattle.outside.specs.Causes.{Contents};
ghost use Rattle.query_text.specs.declared.query.Query.{Query};
ghost use Rattle.bincl_match.specs.declared.mode.Mode.{Mode};
ghost use Rattle.bincl_match.specs.declared.mode.Mode.TheVariants.{Merge};
ghost use Rattle.file_commands.specs.declared.dump.TheConstants.{ROW};
ghost use Rattle.file_commands.specs.declared.outcome.Outcome.{Outcome};
ghost use Rattle.file_commands.specs.declared.outcome.TheConstants.{DONE, USAGE, REFUSED, LIST_REFUSED, ABSENT, READ_FAULT, WRITE_FAULT, NO_MEMORY, LIMIT};
ghost use Rattle.file_commands.specs.ListImages.{IsAcceptedList, IsImageFile, IsAskedOf};
ghost use Rattle.file_commands.specs.QueryOutcomes.{AreBytes, IsOutcome, Means};

use crate::outcome::DONE;
use aout_link::{accepted_laws, one_link};
use aout_object::object_laws;
use command_line::{Asked, Command};
use query_text::{a_reply, one_reply};
use stab_units::one_units;
use unit_index::one_expansion;

/// Words have one outcome at most over files with the same contents.
pub fn one_outcome()
    ensures { (words : List (List ℕ)) (m : Contents) (o other : Outcome) → IsOutcome words m o → IsOutcome words m other → o ≡ other }
{
    object_laws();
    one_units();
    one_expansion();
    one_reply();
    one_link();
}

/// Words have an outcome over all contents that are bytes, as those of files are.
pub fn an_outcome()
    ensures { (words : List (List ℕ)) (m : Contents) → AreBytes m → (o : Outcome) × IsOutcome words m o }
{
    object_laws();
    one_units();
    one_expansion();
    a_reply();
    one_link();
}

/// An accepted list of objects has an image in either mode, and linking it is done, and so is asking a query of it. Where linking is done,
/// what is stored is the file of an image, and every query on a file that holds its bytes is answered as on the world of the placed
/// entries. Where asking is done, the line of the image is printed, and then the reply on that world.
pub fn linking_laws()
    ensures accepted { (mode : Mode) (base : ℕ) (out : List ℕ) (names : List (List ℕ)) (m : Contents) → IsAcceptedList mode base names m
        → (o : Outcome) × Means (Asked.Command (Command.Link mode base out names)) m o × (o.status ≡ DONE) }
    ensures stored { (mode : Mode) (base : ℕ) (out : List ℕ) (names : List (List ℕ)) (m : Contents) (o : Outcome)
        → Means (Asked.Command (Command.Link mode base out names)) m o → o.status ≡ DONE
        → (bytes : List ℕ) × IsImageFile mode base names m bytes × (o.stored ≡ Some (record { name = out; bytes = bytes })) }
    ensures answered { (names : List (List ℕ)) (query : Query) (m : Contents) → IsAcceptedList Merge 0 names m
        → (o : Outcome) × Means (Asked.Command (Command.Ask names query)) m o × (o.status ≡ DONE) }
    ensures told { (names : List (List ℕ)) (query : Query) (m : Contents) (o : Outcome)
        → Means (Asked.Command (Command.Ask names query)) m o → o.status ≡ DONE → IsAskedOf names query m o.text }
{
    object_laws();
    one_expansion();
    accepted_laws();
    a_reply();
    one_link();
}

/// What each status is, and how many bytes stand in a line of a dump, in numbers: definitions cite the constants, so that a changed constant
/// would change what they say.
pub fn statuses_are()
    ensures done { DONE ≡ 0 }
    ensures usage { USAGE ≡ 2 }
    ensures refused { REFUSED ≡ 3 }
    ensures list_refused { LIST_REFUSED ≡ 4 }
    ensures absent { ABSENT ≡ 5 }
    ensures read_fault { READ_FAULT ≡ 6 }
    ensures write_fault { WRITE_FAULT ≡ 7 }
    ensures no_memory { NO_MEMORY ≡ 8 }
    ensures limit { LIMIT ≡ 9 }
    ensures row { ROW ≡ 16 }
{}
