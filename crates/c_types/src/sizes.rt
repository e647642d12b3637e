ghost use Rattle.std.specs.Prelude.{◌≡◌, ◌+◌, ◌^◌, ◌<◌, ◌≤◌};
ghost use Rattle.c_types.specs.Sizes as spec;

/// The greatest size of a type, in bytes. It bounds the places of parameters and locals and the sum of static variables too.
pub const SIZE_LIMIT: u32 = 134_217_728;

/// What the address of a thing is a multiple of: 1, 2 or 4 bytes.
#[derive(Clone, Copy, Debug, Drop)]
pub enum Alignment {
    One,
    Two,
    Four,
}

/// How many bytes a thing takes, and its alignment. A size over `SIZE_LIMIT` counts as the limit and 1.
#[derive(Clone, Copy, Debug, Drop)]
pub struct Extent {
    pub size: u32,
    pub alignment: Alignment,
}

/// How large a type is.
#[derive(Clone, Copy, Debug, Drop)]
pub enum Size {
    /// It has no size, as `void`.
    Nothing,
    /// As large as the tag at this place, in order of first mention, counted from 0. It is looked at when the type is used.
    OfTag(usize),
    Known(Extent),
}

impl Size {
    /// The size of the basic type of this number, 1 to 12. Takes no memory.
    pub fn of_basic(number: u32) -> Size
        ensures { result ≡ spec.of_basic number }
    {
        match number {
            10 => Size::Nothing,
            2 | 8 | 9 => Size::Known(Extent {
                size: 1,
                alignment: Alignment::One,
            }),
            6 | 7 => Size::Known(Extent {
                size: 2,
                alignment: Alignment::Two,
            }),
            11 | 12 => Size::Known(Extent {
                size: 8,
                alignment: Alignment::Four,
            }),
            _ => Size::Known(Extent {
                size: 4,
                alignment: Alignment::Four,
            }),
        }
    }
}

impl Alignment {
    /// The greater of two alignments. Takes no memory.
    pub fn greater(self, other: Alignment) -> Alignment
        ensures { result ≡ spec.greater self other }
    {
        match (self, other) {
            (Alignment::One, _) => other,
            (Alignment::Two, Alignment::One) => Alignment::Two,
            (Alignment::Two, _) => other,
            (Alignment::Four, _) => Alignment::Four,
        }
    }
}

/// The next multiple of an alignment: the number itself where it is one. Takes no memory.
pub fn rounded(number: u64, alignment: Alignment) -> u64
    requires { number < 2 ^ 63 }
    ensures value { result ≡ spec.rounded number alignment }
    ensures small { result ≤ number + 3 }
{
    match alignment {
        Alignment::One => number,
        Alignment::Two => (number + 1) / 2 * 2,
        Alignment::Four => (number + 3) / 4 * 4,
    }
}

/// A size, where one over the limit counts as the limit and 1. Takes no memory.
pub fn cut(size: u64) -> u32
    ensures value { result ≡ spec.cut size }
    ensures small { result ≤ 134217729 }
{
    if size <= u64::from(SIZE_LIMIT) {
        size as u32
    } else {
        SIZE_LIMIT + 1
    }
}

/// The extent of an array of so many items of an extent. Takes no memory.
pub fn repeated(item: Extent, count: u32) -> Extent
    ensures { result ≡ spec.repeated item count }
{
    Extent {
        size: cut(u64::from(item.size) * u64::from(count)),
        alignment: item.alignment,
    }
}

/// The extent of an array of these lengths, the outermost first, of items of an extent. Takes no memory.
pub fn array_extent(lengths: &[u32], item: Extent) -> Extent
    ensures { result ≡ spec.array_extent lengths.now item }
{
    let mut extent = item;
    for at in (0..lengths.len()).rev() {
        extent = repeated(extent, lengths[at]);
    }
    extent
}
