//! Carrying out an outcome, whatever the command: what is to be stored is stored, and then all is printed at once.

ghost use Rattle.std.specs.Prelude.{◌≡◌, codes};
ghost use Rattle.file_commands.specs.RunCauses.{seen};
ghost use Rattle.stabs_tool.specs.Carrying.{Prints, Carried, Keeps, CallsStore};

use file_commands::{Content, NO_MEMORY, Outcome, WRITE_FAULT};
use outside::{Files, Put, Sink, Stored};
use std::alloc::Global;

/// Prints a text in one piece, and answers this status, or that printing failed.
fn print<S: Sink>(bytes: &[u8], status: u8, out: &mut S) -> u8
    ensures { Prints (S.written out.old) (S.written out.new) (S.faults out.old) (S.faults out.new) bytes.now status result }
{
    match out.put(bytes) {
        Put::Done => status,
        Put::Failed => WRITE_FAULT,
        Put::Memory => NO_MEMORY,
    }
}

/// Stores what is to be stored, by one call of the files, or none where nothing is to be stored.
fn keep<F: Files>(alloc: Global, content: &Option<Content>, files: &mut F) -> Stored
    ensures kept { Keeps content.now (seen (F.held files.old) (F.load_faults files.old) (F.store_faults files.old) (F.last_failed files.old))
        (seen (F.held files.new) (F.load_faults files.new) (F.store_faults files.new) (F.last_failed files.new)) result }
    ensures called { CallsStore content.now (F.calls files.old) (F.calls files.new) }
{
    match content {
        None => Stored::Done,
        Some(content) => files.store(alloc, &content.name, &content.bytes),
    }
}

/// Stores what is to be stored, prints once, and answers the status: the outcome's, or that of the store or the put that failed.
/// Where storing failed, that is printed in place of the outcome's text. Of the files the store alone is called, once.
pub fn carry_out<F: Files, S: Sink>(
    alloc: Global,
    outcome: &Outcome,
    files: &mut F,
    out: &mut S,
) -> u8
    ensures carried { Carried outcome.now (seen (F.held files.old) (F.load_faults files.old) (F.store_faults files.old) (F.last_failed files.old))
        (seen (F.held files.new) (F.load_faults files.new) (F.store_faults files.new) (F.last_failed files.new))
        (S.written out.old) (S.written out.new) (S.faults out.old) (S.faults out.new) result }
    ensures called { CallsStore outcome.now.stored (F.calls files.old) (F.calls files.new) }
{
    match keep(alloc, &outcome.stored, files) {
        Stored::Done => print(outcome.text.bytes(), outcome.status, out),
        Stored::Failed => print(b"write fault\n", WRITE_FAULT, out),
        Stored::Memory => NO_MEMORY,
    }
}
