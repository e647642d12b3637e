//! What the words come to, before anything is stored or printed.

ghost use Rattle.std.specs.Prelude.{◌≡◌, ◌≤◌, IfOk};
ghost use Rattle.file_commands.specs.RunCauses.{seen};
ghost use Rattle.command_line.specs.Commands.{IsRead, IsWritten, IsWrong};
ghost use Rattle.command_line.specs.Commands as commands;
ghost use Rattle.stabs_tool.specs.Deciding.{Decided, DecidesCalls};
ghost use Rattle.file_commands.specs.QueryOutcomes.{Means};

use command_line::{Asked, Command, inputs_of, most_of, read_words};
use file_commands::{Outcome, load_all, reply, usage};
use outside::Files;
use st_base::{FILE_LIMIT, List, Memory, Text};
use std::alloc::Global;

/// The outcome of a command: its inputs are loaded in order, each once, to the first that fails, and answered on.
fn perform<F: Files>(alloc: Global, command: &Command, files: &mut F) -> Result<Outcome, Memory>
    ensures answer { let asked = Asked.Command command.now in IfOk result (Decided (Means asked) (IsRead asked) (IsWritten asked) (IsWrong asked)
        (seen (F.held files.old) (F.load_faults files.old) (F.store_faults files.old) (F.last_failed files.old))
        (seen (F.held files.new) (F.load_faults files.new) (F.store_faults files.new) (F.last_failed files.new))) }
    ensures held { F.held files.new ≡ F.held files.old }
    ensures stores { F.store_faults files.new ≡ F.store_faults files.old }
    ensures later { F.load_faults files.old ≤ F.load_faults files.new }
    ensures called { DecidesCalls (Asked.Command command.now) (F.calls files.old) (F.calls files.new) result }
{
    let names = inputs_of(alloc, command)?;
    let inputs = load_all(alloc, names.items(), most_of(command), FILE_LIMIT, files)?;
    reply(alloc, command, names.items(), inputs)
}

/// The outcome of the words, as far as the files do not fail; where a load fails, that is reported. Of the files nothing is called but
/// the loads of the inputs.
pub fn decide<F: Files>(alloc: Global, words: &List<Text>, files: &mut F) -> Result<Outcome, Memory>
    ensures answer { let asked = commands.asked words.now in IfOk result (Decided (Means asked) (IsRead asked) (IsWritten asked) (IsWrong asked)
        (seen (F.held files.old) (F.load_faults files.old) (F.store_faults files.old) (F.last_failed files.old))
        (seen (F.held files.new) (F.load_faults files.new) (F.store_faults files.new) (F.last_failed files.new))) }
    ensures held { F.held files.new ≡ F.held files.old }
    ensures stores { F.store_faults files.new ≡ F.store_faults files.old }
    ensures later { F.load_faults files.old ≤ F.load_faults files.new }
    ensures called { DecidesCalls (commands.asked words.now) (F.calls files.old) (F.calls files.new) result }
{
    let asked = read_words(alloc, words)?;
    match asked {
        Asked::Wrong(at) => usage(alloc, at),
        Asked::Command(command) => perform(alloc, &command, files),
    }
}
