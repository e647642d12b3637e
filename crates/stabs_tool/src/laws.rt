//! What a run comes to over files and a sink that never fail.

ghost use Rattle.std.specs.Prelude.{◌≡◌, ◌⊎◌, Some, None};
ghost use Rattle.file_commands.specs.RunCauses.{seen};
ghost use Rattle.stabs_tool.specs.Promise.{IsDone};
ghost use Rattle.file_commands.specs.QueryOutcomes.{IsOutcome};

use crate::top::run;
use file_commands::NO_MEMORY;
use outside::{SureFiles, SureSink};
use st_base::{List, Text};
use std::alloc::Global;

/// A run over files and a sink that never fail: the outcome is carried out, unless out of memory.
pub fn run_surely(
    alloc: Global,
    words: &List<Text>,
    files: &mut SureFiles,
    out: &mut SureSink,
) -> u8
    ensures { (result ≡ NO_MEMORY) ⊎ IsDone (IsOutcome words.now) files.old.contents (seen (Some files.new.contents) 0 0 None) (Some out.old) (Some out.new) result }
{
    run(alloc, words, files, out)
}
