ghost use Rattle.file_commands.specs.RunCauses.{seen};
ghost use Rattle.command_line.specs.Commands.{asked, IsRead, IsWritten, IsWrong};
ghost use Rattle.stabs_tool.specs.RunCalls.{Calls};
ghost use Rattle.stabs_tool.specs.Headline.{Headline};
ghost use Rattle.stabs_tool.specs.Promise.{Promise};
ghost use Rattle.file_commands.specs.QueryOutcomes.{IsOutcome};

use crate::carry::carry_out;
use crate::decide::decide;
use file_commands::{NO_MEMORY, linking_laws, one_outcome};
use outside::{Files, Sink};
use st_base::{List, Text};
use std::alloc::Global;

/// Does what the words ask: decides on an outcome, stores where there is something to store, prints in one piece, and answers the
/// status.
///
/// 0 where the defined output was printed, 2 for words that are no command, 3 for a refused file, 4 for refused files together, 5
/// for an absent one, 6 where reading failed, 7 where storing or printing failed, 8 out of memory, 9 where a limit is passed.
/// Status 8 may come at any place: no clause ties it to a refused growth.
///
/// Whatever the files tell and whatever fails, of the files these alone are called: each input of the command is loaded once, in order,
/// up to the first that is not loaded; and behind all of them the file that the words name is stored, once at most, and with none of
/// the statuses 2 to 6 and 9. With status 0 it was stored exactly where the command stores one. Words that are no command call nothing.
pub fn run<F: Files, S: Sink>(alloc: Global, words: &List<Text>, files: &mut F, out: &mut S) -> u8
    ensures promise { Promise (IsOutcome words.now) (IsRead (asked words.now)) (IsWritten (asked words.now)) (IsWrong (asked words.now))
        (seen (F.held files.old) (F.load_faults files.old) (F.store_faults files.old) (F.last_failed files.old))
        (seen (F.held files.new) (F.load_faults files.new) (F.store_faults files.new) (F.last_failed files.new))
        (S.written out.old) (S.written out.new) (S.faults out.old) (S.faults out.new) result }
    ensures linked { Headline words.now (seen (F.held files.old) (F.load_faults files.old) (F.store_faults files.old) (F.last_failed files.old))
        (seen (F.held files.new) (F.load_faults files.new) (F.store_faults files.new) (F.last_failed files.new))
        (S.written out.old) (S.written out.new) (S.faults out.old) (S.faults out.new) result }
    ensures called { Calls (asked words.now) (F.calls files.old) (F.calls files.new) (S.written out.old) (S.written out.new) result }
{
    one_outcome();
    linking_laws();
    match decide(alloc, words, files) {
        Err(_) => NO_MEMORY,
        Ok(outcome) => carry_out(alloc, &outcome, files, out),
    }
}
