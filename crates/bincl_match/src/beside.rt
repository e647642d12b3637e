//! Lists of ranges, each of which is changed by what stands beside it in another list.

ghost use Rattle.std.specs.Prelude.{◌≡◌, length, IfOk};
ghost use Rattle.bincl_match.specs.declared.range.RangeOf.{RangeOf as Range};
ghost use Rattle.bincl_match.specs.Reading.{beside};

use crate::range::RangeOf;
use st_base::{List, Memory};
use std::alloc::Global;

/// What changes a range beside which it stands.
pub(crate) trait Beside: Copy {
    // What a range becomes.
    ghost changes: { Range → Self → Range };

    /// The range changed.
    fn change(self, range: RangeOf) -> RangeOf
        ensures { result ≡ changes range self };
}

/// The flag of a range: it is no candidate where the flag is set.
impl Beside for bool {
    ghost use Rattle.bincl_match.specs.Reading.{with_flag};

    ghost changes = { with_flag };

    fn change(self, range: RangeOf) -> RangeOf {
        let RangeOf {
            unit,
            file,
            name,
            shape,
            numbers,
            sum,
            candidate,
        } = range;
        RangeOf {
            unit,
            file,
            name,
            shape,
            numbers,
            sum,
            candidate: candidate && !self,
        }
    }
}

/// The number of its unit.
impl Beside for u32 {
    ghost use Rattle.bincl_match.specs.Reading.{with_unit};

    ghost changes = { with_unit };

    fn change(self, range: RangeOf) -> RangeOf {
        let RangeOf {
            unit: _,
            file,
            name,
            shape,
            numbers,
            sum,
            candidate,
        } = range;
        RangeOf {
            unit: self,
            file,
            name,
            shape,
            numbers,
            sum,
            candidate,
        }
    }
}

/// The ranges changed by what stands beside each.
pub(crate) fn all_changed<B: Beside>(
    alloc: Global,
    mut ranges: List<RangeOf>,
    changes: &[B],
) -> Result<List<RangeOf>, Memory>
    requires { length changes.now ≡ length ranges }
    ensures { IfOk result (λ out. out ≡ beside B.changes ranges changes.now) }
{
    let mut out = List::new(alloc);
    for at in 0..changes.len() {
        let range = ranges.replace(at, RangeOf::blank(alloc));
        out.push(changes[at].change(range))?;
    }
    Ok(out)
}
