ghost use Rattle.std.specs.Prelude.{◌≡◌};
ghost use Rattle.c_units.specs.Drafts as spec;

use c_types::{
    Alignment, Declared, Extent, Names, SIZE_LIMIT, Size, Stack, Tag, Typedefs, array_extent,
};
use st_base::{Fault, List, Text};

/// A header that is read inside another file: what is known of the outer file, which goes on behind it.
#[derive(Clone, Copy, Debug, Drop)]
pub struct Outer {
    /// The place of the outer file among the given ones.
    pub place: u64,
    /// The number of the outer file in the unit.
    pub file: u32,
    /// The next number of a type of the outer file.
    pub next: u32,
}

/// A block that is open.
#[derive(Drop)]
pub struct Scope {
    /// How many blocks of the unit began before it.
    pub number: u64,
    /// The names of its locals.
    pub names: Names,
    /// Whether its beginning is in the text, which comes behind its locals.
    pub begun: bool,
}

/// A unit of stabs text as it is being written: what is known of the declarations so far, and their text.
///
/// Each act of a declaration is a method. Its result is what the definition of its name says, or out of memory, after which nothing is
/// said of the draft but that it can be dropped. A fault has the line of the token concerned as its place, and within it the place of
/// the file among the given ones; it leaves the draft as it was.
#[derive(Drop)]
pub struct Draft {
    /// The place of the file that is read among the given ones, 0 for the main source.
    pub place: u64,
    /// The number of that file in the unit, 0 for the main source.
    pub file: u32,
    /// The next number of a type of that file.
    pub next: u32,
    /// The files around it, the innermost on top.
    pub outer: Stack<Outer>,
    /// How many headers were begun.
    pub headers: u32,
    /// The names of tags in order of first mention, and beside each, at the same place, what is known of it.
    pub tag_names: Names,
    pub tags: List<Tag>,
    /// The typedefs by their names, in order.
    pub typedefs: Typedefs,
    /// The names of the unit that are not tags.
    pub names: Names,
    /// The sum of the sizes of static variables, each padded to 4.
    pub statics: u32,
    /// The place of the next parameter in the frame of its function, or what the locals so far take of it.
    pub offset: u32,
    /// The names of the function's parameters.
    pub params: Names,
    /// How many blocks were begun.
    pub blocks: u64,
    /// The blocks that are open, the innermost on top.
    pub scopes: Stack<Scope>,
    /// The lines so far. It only grows at its end.
    pub text: Text,
}

impl Draft {
    /// A fault of the file that is read, on this line. Takes no memory.
    pub fn fault(&self, number: u16, line: u64) -> Fault
        ensures { result ≡ spec.fault number line self.now }
    {
        Fault {
            number,
            place: line,
            within: self.place,
        }
    }

    /// How large a type is now: `None` for `void`, and for a tag whose body has not ended. Takes no memory.
    #[tactic(auto, unfolding(crate::specs::Drafts::extent_of))]
    pub fn extent_of(&self, size: Size) -> Option<Extent>
        ensures { result ≡ spec.extent_of size self.now }
    {
        match size {
            Size::Nothing => None,
            Size::OfTag(place) => self.tags.get(place)?.extent,
            Size::Known(extent) => Some(extent),
        }
    }

    fn arrayed(&self, lengths: &[u32], size: Size) -> Option<Size>
        ensures { result ≡ spec.arrayed lengths.now size self.now }
    {
        match lengths {
            [] => Some(size),
            [_, ..] => {
                let item = self.extent_of(size)?;
                Some(Size::Known(array_extent(lengths, item)))
            }
        }
    }

    /// The size of a declared type; `None` where an array has items without a size now. Takes no memory.
    #[tactic(auto, unfolding(crate::specs::Drafts::declared_size))]
    pub fn declared_size(&self, declared: &Declared) -> Option<Size>
        ensures { result ≡ spec.declared_size declared.now self.now }
    {
        self.arrayed(
            declared.lengths.items(),
            pointed(declared.stars, declared.base.size),
        )
    }

    /// How large a declared type is now. Takes no memory.
    #[tactic(auto, unfolding(crate::specs::Drafts::declared_extent))]
    pub fn declared_extent(&self, declared: &Declared) -> Option<Extent>
        ensures { result ≡ spec.declared_extent declared.now self.now }
    {
        let size = self.declared_size(declared)?;
        self.extent_of(size)
    }

    /// Whether a type of this size is over the limit now. Takes no memory.
    pub fn is_large(&self, size: Size) -> bool
        ensures { result ≡ spec.is_large (spec.extent_of size self.now) }
    {
        match self.extent_of(size) {
            Some(extent) => extent.size > SIZE_LIMIT,
            None => false,
        }
    }
}

// The size behind so many stars.
fn pointed(stars: u64, size: Size) -> Size
    ensures { result ≡ spec.pointed stars size }
{
    match stars {
        0 => size,
        _ => Size::Known(Extent {
            size: 4,
            alignment: Alignment::Four,
        }),
    }
}
