//! The inputs of a command, loaded in order.

ghost use Rattle.std.specs.Prelude.{◌≡◌, ℕ, nat_lt, length};
ghost use Rattle.std.specs.List.{sum_by};
ghost use Rattle.file_commands.specs.RunCauses.{seen};
ghost use Rattle.file_commands.specs.Inputs.{loaded_inputs, HasLoaded, LoadsNames};

use command_line::MOST_NAMES;
use outside::{Files, Loaded};
use st_base::{List, Memory, Text};
use std::alloc::Global;

/// Why an input was not loaded.
#[derive(Clone, Copy, Debug, Drop, PartialEq, Eq)]
pub enum Cause {
    Absent,
    Long,
    Failed,
}

/// What loading all inputs came to.
#[derive(Debug, Drop)]
pub enum Inputs {
    /// The contents, in order.
    All(List<Text>),
    /// The first input that was not loaded, by its place, and why.
    Fault(usize, Cause),
    /// The contents together have too many bytes.
    TooMuch,
    /// The names are too many.
    TooMany,
}

/// Whether the texts have more than `total` bytes.
fn passes(texts: &[Text], total: u64) -> bool
    ensures { result ≡ nat_lt total (sum_by length texts.now) }
{
    let mut left = total;
    for text in texts {
        let count = text.bytes().len() as u64;
        if left < count {
            return true;
        }
        left -= count;
    }
    false
}

/// Loads all names in order, each once, to the first that fails, unless they are too many: each for at most `most` bytes, and `total`
/// bytes together. Nothing else is called. Takes memory for the texts; out of memory is an answer of its own.
pub fn load_all<F: Files>(
    alloc: Global,
    names: &[Text],
    most: u64,
    total: u64,
    files: &mut F,
) -> Result<Inputs, Memory>
    ensures loaded { HasLoaded (λ m. loaded_inputs m most total names.now)
        (seen (F.held files.old) (F.load_faults files.old) (F.store_faults files.old) (F.last_failed files.old))
        (seen (F.held files.new) (F.load_faults files.new) (F.store_faults files.new) (F.last_failed files.new)) names.now result }
    ensures called { LoadsNames most names.now (F.calls files.old) (F.calls files.new) result }
{
    if names.len() as u64 > MOST_NAMES {
        return Ok(Inputs::TooMany);
    }
    let mut texts = List::new(alloc);
    for (at, name) in names.iter().enumerate() {
        match files.load(alloc, name.copy(alloc)?, most) {
            Loaded::Bytes(text) => texts.push(text)?,
            Loaded::Absent => return Ok(Inputs::Fault(at, Cause::Absent)),
            Loaded::Long => return Ok(Inputs::Fault(at, Cause::Long)),
            Loaded::Failed => return Ok(Inputs::Fault(at, Cause::Failed)),
            Loaded::Memory => return Err(Memory),
        }
    }
    if passes(texts.items(), total) {
        Ok(Inputs::TooMuch)
    } else {
        Ok(Inputs::All(texts))
    }
}
