//! A header range, and which ranges are kept.

ghost use Rattle.std.specs.Prelude.{◌≡◌, IfOk};

use st_base::{List, Memory, Text};
use std::alloc::Global;

/// A header range: a header that an N_BINCL opens, and what the symbols of its file are wherever it is included.
#[derive(Debug, Drop)]
pub struct RangeOf {
    /// The number of its unit, from 0.
    pub unit: u32,
    /// The number of its file in the unit, from 1.
    pub file: u32,
    /// The name of its N_BINCL.
    pub name: Text,
    /// The spelling of each symbol of its file, without the digits of the file of each pair.
    pub shape: List<Text>,
    /// The files of the pairs in these symbols, in order.
    pub numbers: List<u32>,
    /// The sum of the bytes of its symbols modulo 2^32, without the digits that directly follow each `(`.
    pub sum: u32,
    /// Whether it may be merged: its own entries all belong to N_LSYM type symbols, and no unit has two ranges of its name and shape.
    pub candidate: bool,
}

/// Which ranges of a list are kept, and what tells them apart.
#[derive(Debug, Drop)]
pub struct Grouping {
    /// For each range the place of the range that is kept for it.
    pub kept: List<u32>,
    /// For each range the instance of the range that is kept for it.
    pub instance: List<u32>,
}

fn copy_texts(alloc: Global, texts: &[Text]) -> Result<List<Text>, Memory>
    ensures { IfOk result (λ copied. copied ≡ texts.now) }
{
    let mut copied = List::new(alloc);
    for text in texts {
        copied.push(text.copy(alloc)?)?;
    }
    Ok(copied)
}

fn copy_numbers(alloc: Global, numbers: &[u32]) -> Result<List<u32>, Memory>
    ensures { IfOk result (λ copied. copied ≡ numbers.now) }
{
    let mut copied = List::new(alloc);
    for number in numbers {
        copied.push(*number)?;
    }
    Ok(copied)
}

impl RangeOf {
    /// A copy, in memory of its own.
    pub fn copy(&self, alloc: Global) -> Result<RangeOf, Memory>
        ensures { IfOk result (λ x. x ≡ self.now) }
    {
        Ok(RangeOf {
            unit: self.unit,
            file: self.file,
            name: self.name.copy(alloc)?,
            shape: copy_texts(alloc, self.shape.items())?,
            numbers: copy_numbers(alloc, self.numbers.items())?,
            sum: self.sum,
            candidate: self.candidate,
        })
    }

    // Nothing, for the place of a range that is taken out.
    pub(crate) fn blank(alloc: Global) -> RangeOf {
        RangeOf {
            unit: 0,
            file: 0,
            name: Text::new(alloc),
            shape: List::new(alloc),
            numbers: List::new(alloc),
            sum: 0,
            candidate: false,
        }
    }
}
