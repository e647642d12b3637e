//! The outcome of a command over what its inputs came to. Each command stands in a module named after it.

ghost use Rattle.std.specs.Prelude.{◌≡◌, IfOk};
ghost use Rattle.command_line.specs.Commands as commands;
ghost use Rattle.command_line.specs.CommandWords as words;
ghost use Rattle.file_commands.specs.Inputs.{IsPlaced};
ghost use Rattle.file_commands.specs.QueryOutcomes.{Answers, RepliesTo};

use crate::ask::ask_files;
use crate::assemble::assemble_source;
use crate::check::check_file;
use crate::dump::dump_file;
use crate::inputs::{Cause, Inputs};
use crate::link::link_files;
use crate::list::list_file;
use crate::outcome::{Outcome, absent, limit, read_fault};
use crate::query::query_file;
use command_line::{Command, MOST_NAMES, most_of};
use st_base::{FILE_LIMIT, List, Memory, Text};
use std::alloc::Global;

/// The first of the texts; empty where there is none. The others are let go.
fn first(alloc: Global, texts: List<Text>) -> Text
    ensures { result ≡ words.first texts }
{
    match texts.into_vec().into_iter().next() {
        Some(text) => text,
        None => Text::new(alloc),
    }
}

/// The outcome of a command whose inputs have these contents, which are let go as soon as they are read.
fn answer(alloc: Global, command: &Command, texts: List<Text>) -> Result<Outcome, Memory>
    ensures { IfOk result (Answers command.now texts) }
{
    match command {
        Command::Query { file, query } => {
            query_file(alloc, file.bytes(), query, first(alloc, texts))
        }
        Command::Check { file } => check_file(alloc, file.bytes(), first(alloc, texts)),
        Command::Dump { file } => dump_file(alloc, file.bytes(), first(alloc, texts)),
        Command::List { file } => list_file(alloc, file.bytes(), first(alloc, texts)),
        Command::As { order, file, out } => assemble_source(
            alloc,
            *order,
            file.bytes(),
            out.bytes(),
            first(alloc, texts),
        ),
        Command::Link {
            mode,
            base,
            out,
            objects,
        } => link_files(alloc, *mode, *base, out.bytes(), objects.items(), texts),
        Command::Ask { objects, query } => ask_files(alloc, query, objects.items(), texts),
    }
}

/// The outcome of a command, whose inputs have these names, where they come to this: what its texts are answered by, or the line of the first
/// input that was not loaded. The inputs are let go as they are read. Takes memory for what it decodes, assembles, asks or links; out of memory
/// is its only refusal, since a fault is an outcome.
pub fn reply(
    alloc: Global,
    command: &Command,
    names: &[Text],
    inputs: Inputs,
) -> Result<Outcome, Memory>
    requires named { names.now ≡ commands.inputs_of command.now }
    requires within { IsPlaced names.now inputs }
    ensures { IfOk result (RepliesTo command.now inputs) }
{
    match inputs {
        Inputs::All(texts) => answer(alloc, command, texts),
        Inputs::Fault(at, Cause::Absent) => absent(alloc, names[at].bytes()),
        Inputs::Fault(_, Cause::Long) => limit(alloc, most_of(command)),
        Inputs::Fault(at, Cause::Failed) => read_fault(alloc, names[at].bytes()),
        Inputs::TooMuch => limit(alloc, FILE_LIMIT),
        Inputs::TooMany => limit(alloc, MOST_NAMES),
    }
}
