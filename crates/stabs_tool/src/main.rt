//! The program: it answers questions about the stabs of an object file.
//!
//! `run` does all that the program does, over any files and any sink; `main` makes the real ones. What a run
//! promises is `specs/Promise.antt`, and the clause of `run`.
#![tactic(auto)]

mod arguments;
#[cfg(test)]
mod as_rows;
#[cfg(test)]
mod ask_rows;
mod carry;
#[cfg(test)]
mod check_rows;
mod decide;
#[cfg(test)]
mod dump_rows;
#[cfg(test)]
mod image_rows;
mod laws;
#[cfg(test)]
mod link_rows;
#[cfg(test)]
mod merge_rows;
#[cfg(test)]
mod query_rows;
#[cfg(test)]
mod tests;
mod top;

use arguments::words_of;
use file_commands::NO_MEMORY;
pub use laws::run_surely;
use outside::{DiskFiles, StreamSink};
use std::process::ExitCode;
pub use top::run;

fn main(rt: HostRuntime) -> ExitCode {
    let alloc = rt.alloc();
    match words_of(alloc, &rt) {
        Ok(words) => {
            let mut out = StreamSink::new(rt.stdout());
            let mut files = DiskFiles::new(rt);
            ExitCode::from(run(alloc, &words, &mut files, &mut out))
        }
        Err(_) => ExitCode::from(NO_MEMORY),
    }
}
