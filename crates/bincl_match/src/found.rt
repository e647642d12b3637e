//! Header ranges before the whole list has been looked at.

ghost use Rattle.std.specs.Prelude.{◌≡◌, ◌++◌, ◌∷◌, [], OnErr, OnOk};

use crate::range::RangeOf;
use st_base::{List, Memory};
use std::alloc::Global;
use std::marker::Model;

/// Header ranges as they are found in entries by themselves: which of them are no candidates, since some unit has their name and shape
/// twice, is not decided yet. `join_ranges` decides it. Contracts see the list of the ranges.
#[derive(Debug, Drop)]
pub struct Found {
    ranges: List<RangeOf>,
}

impl Model for Found {
    ghost use Rattle.std.specs.Prelude.{List};
    ghost use Rattle.bincl_match.specs.declared.range.RangeOf.{RangeOf};

    ghost Value = { List RangeOf };

    ghost view = { λ s. s.ranges };
}

impl Found {
    /// No ranges. Takes no memory.
    pub fn new(alloc: Global) -> Found
        ensures { result ≡ [] }
    {
        Found {
            ranges: List::new(alloc),
        }
    }

    /// Puts a range at the end; after out of memory nothing has changed.
    pub fn push(&mut self, range: RangeOf) -> Result<(), Memory>
        ensures ok { OnOk result (self.new ≡ self.old ++ range ∷ []) }
        ensures err { OnErr result (self.new ≡ self.old) }
    {
        self.ranges.push(range)?;
        Ok(())
    }

    /// All ranges, in order. Takes no memory.
    pub fn items(&self) -> &[RangeOf]
        ensures { result.now ≡ self.now }
    {
        self.ranges.items()
    }

    /// These ranges, found.
    pub(crate) fn of(ranges: List<RangeOf>) -> Found
        ensures { result ≡ ranges }
    {
        Found { ranges }
    }

    /// The ranges themselves.
    pub(crate) fn into_list(self) -> List<RangeOf>
        ensures { result ≡ self }
    {
        self.ranges
    }
}
