ghost use Rattle.std.specs.Prelude.{◌≡◌};
ghost use Rattle.stab_codes.specs.Segments.{segment_of};

use nlist_codec::{BSS_SEGMENT, DATA_SEGMENT, SEGMENT_BITS, TEXT_SEGMENT};

/// What the value of an entry moves with when a linker places its object: nothing, or one segment.
#[derive(Clone, Copy, Debug, Drop, PartialEq, Eq)]
pub enum Segment {
    Still,
    Text,
    Datum,
    Bss,
}

/// The segment that the value of an entry of this kind moves with: text, data or bss where the bits of the kind that
/// give its segment say so, else none. Takes no memory. After a.out(5), `N_TYPE`.
#[tactic(auto, unfolding(crate::specs::Segments::segment_of))]
pub fn segment_of(kind: u8) -> Segment
    ensures { result ≡ segment_of kind }
{
    match kind & SEGMENT_BITS {
        TEXT_SEGMENT => Segment::Text,
        DATA_SEGMENT => Segment::Datum,
        BSS_SEGMENT => Segment::Bss,
        _ => Segment::Still,
    }
}
