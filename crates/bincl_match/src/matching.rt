//! Classes of ranges: which headers of several units are one.
//!
//! The types of a header may name types of other headers, by the number of their file. So whether two ranges are one depends on whether
//! others are, also in a circle:
//!
//! ```text
//! unit 0: "x.h" N_BINCL (1)  "p:t(1,1)=*(2,1)"     unit 1: "y.h" N_BINCL (1)  "q:t(1,1)=*(2,1)"
//!         "y.h" N_BINCL (2)  "q:t(2,1)=*(1,1)"             "x.h" N_BINCL (2)  "p:t(2,1)=*(1,1)"
//! ```
//!
//! The two `x.h` have one name and one shape, and so have the two `y.h`; `x.h` names file 2 of its unit and file 1 of the other. They are
//! one if the two `y.h` are, and these are one if the two `x.h` are: as a matching both pairs may be, so both are one.
//!
//! 1. Each number of a range becomes the place of the range that it names. A range with a number that names none stands alone.
//! 2. The others start in groups by name and shape.
//! 3. A round splits each group by the groups of the ranges that its ranges name.
//! 4. Where a round splits nothing, the groups are the classes.
//!
//! No pair of a matching is ever split, since its numbers name pairs of the matching; so no class is larger. The groups at the end are a
//! matching, since those that the ranges of a group name are of one group. Each round but the last splits a group, so there are no more
//! rounds than ranges.

ghost use Rattle.std.specs.Prelude.{◌<◌, ◌^◌, length, IfOk};
ghost use Rattle.bincl_match.specs.Lawful.{IsLawful};
ghost use Rattle.bincl_match.specs.Matching.{AreClasses};

use crate::instances::instances;
use crate::prepare::prepare_all;
use crate::range::{Grouping, RangeOf};
use crate::refine::refine;
use st_base::{List, Memory};
use std::alloc::Global;

/// The classes of ranges: for each range the place of the first of its class, and the instance of that one. Two candidates of two units
/// are of one class where they have one name, one shape, and numbers that name ranges of one class; it is the largest such grouping.
///
/// `ranges` is a list that `ranges` gave, so it is lawful and has fewer than 2^32 items. Takes memory for each range and each of its
/// numbers, and time for these in each round; there are as many rounds as the longest chain of headers that name each other and differ
/// only at its end. Out of memory is the one refusal. This project's own.
pub fn classes(alloc: Global, ranges: &List<RangeOf>) -> Result<Grouping, Memory>
    requires lawful { IsLawful ranges.now }
    requires few { length ranges.now < 2 ^ 32 }
    ensures { IfOk result (λ g. AreClasses ranges.now g) }
{
    let prepared = prepare_all(alloc, ranges.items())?;
    let kept = refine(alloc, ranges.items(), prepared.items())?;
    let instance = instances(alloc, ranges.items(), kept.items())?;
    Ok(Grouping { kept, instance })
}
