ghost use Rattle.std.specs.Prelude.{◌≡◌, ◌++◌, OnOk, ◌+◌, ◌<◌, ◌≤◌, ◌^◌};
ghost use Rattle.c_types.specs.Acts.{Acts, Gives};
ghost use Rattle.c_units.specs.Layouts as spec;
ghost use Rattle.c_types.specs.Types as types;
ghost use Rattle.c_types.specs.Sizes as sizes;

use crate::draft::Draft;
use c_types::{
    Alignment, CType, Declared, Extent, Mention, SIZE_LIMIT, Word, cut, put_declared, rounded,
};
use st_base::{C_INCOMPLETE, C_LARGE, Memory, Refused, Text, put_number};
use std::alloc::Global;

/// The body of a structure or a union that is being read: its fields so far.
#[derive(Drop)]
pub struct Layout {
    /// `struct` or `union`.
    pub word: Word,
    /// The fields as they are written.
    pub text: Text,
    /// Where the last field ends, in bytes.
    pub end: u32,
    /// The greatest size of a field.
    pub size: u32,
    /// The greatest alignment of a field.
    pub alignment: Alignment,
}

fn larger(a: u32, b: u32) -> u32
    ensures { result ≡ spec.larger a b }
{
    if a <= b { b } else { a }
}

fn place_in(word: Word, end: u32, extent: Extent) -> u64
    ensures value { result ≡ spec.place_in word end extent }
    ensures small { result ≤ end + 3 }
{
    match word {
        Word::Union => 0,
        Word::Struct | Word::Enum => rounded(u64::from(end), extent.alignment),
    }
}

fn put_field(
    out: &mut Text,
    name: &[u8],
    declared: &Declared,
    place: u64,
    size: u32,
) -> Result<(), Memory>
    requires { place < 2 ^ 60 }
    ensures { OnOk result (out.new ≡ out.old ++ spec.field_text name.now (types.declared_text declared.now) place size) }
{
    out.extend(name)?;
    out.push(b':')?;
    put_declared(out, declared)?;
    put_bits(out, place, size)
}

fn put_bits(out: &mut Text, place: u64, size: u32) -> Result<(), Memory>
    requires { place < 2 ^ 60 }
    ensures { OnOk result (out.new ≡ out.old ++ spec.bits_text place size) }
{
    out.push(b',')?;
    put_number(8 * place, out)?;
    out.push(b',')?;
    put_number(8 * u64::from(size), out)?;
    out.push(b';')
}

impl Layout {
    /// A body without fields. Takes no memory.
    pub fn new(alloc: Global, word: Word) -> Layout
        ensures { result ≡ spec.empty word }
    {
        Layout {
            word,
            text: Text::new(alloc),
            end: 0,
            size: 0,
            alignment: Alignment::One,
        }
    }

    // The field stands behind those before it.
    fn add(&mut self, name: &[u8], declared: &Declared, extent: Extent) -> Result<(), Memory>
        ensures { OnOk result (self.new ≡ spec.with_field name.now (types.declared_text declared.now) extent self.old) }
    {
        let place = place_in(self.word, self.end, extent);
        put_field(&mut self.text, name, declared, place, extent.size)?;
        self.end = cut(place + u64::from(extent.size));
        self.size = larger(self.size, extent.size);
        self.alignment = self.alignment.greater(extent.alignment);
        Ok(())
    }

    // The size of the body, padded.
    fn body_size(&self) -> u64
        ensures value { result ≡ spec.body_size self.now }
        ensures small { result < 2 ^ 33 }
    {
        padded(self.word, self.end, self.size, self.alignment)
    }
}

fn padded(word: Word, end: u32, size: u32, alignment: Alignment) -> u64
    ensures value { result ≡ sizes.rounded (spec.unpadded word end size) alignment }
    ensures small { result < 2 ^ 33 }
{
    match word {
        Word::Union => rounded(u64::from(size), alignment),
        Word::Struct | Word::Enum => rounded(u64::from(end), alignment),
    }
}

// A body as it is written.
fn put_body(out: &mut Text, word: Word, size: u32, fields: &[u8]) -> Result<(), Memory>
    ensures { OnOk result (out.new ≡ out.old ++ spec.body_with word size fields.now) }
{
    out.push(word.letter())?;
    put_number(u64::from(size), out)?;
    out.extend(fields)?;
    out.push(b';')
}

impl Draft {
    /// A field is added to a body of the unit. Refused, at the `;` behind it, as `C_INCOMPLETE` where its type has no size now, and as
    /// `C_LARGE` where that is over the limit.
    #[tactic(auto, unfolding(crate::specs::Layouts::add_field))]
    pub fn add_field(
        &self,
        layout: &mut Layout,
        name: &[u8],
        declared: &Declared,
        line: u64,
    ) -> Result<(), Refused>
        ensures { Acts (spec.add_field name.now declared.now line self.now layout.old) layout.old layout.new result }
    {
        let Some(extent) = self.declared_extent(declared) else {
            return Err(Refused::At(self.fault(C_INCOMPLETE, line)));
        };
        if extent.size > SIZE_LIMIT {
            return Err(Refused::At(self.fault(C_LARGE, line)));
        }
        layout.add(name, declared, extent)?;
        Ok(())
    }

    /// A body ends; the type is that of its tag, or the body itself where it has none. Refused as `C_LARGE`, at the `}`, where the
    /// body is over the limit.
    #[tactic(auto, unfolding(crate::specs::Layouts::close_body))]
    pub fn close_body(
        &mut self,
        alloc: Global,
        tag: Option<Mention>,
        layout: &Layout,
        line: u64,
    ) -> Result<CType, Refused>
        ensures { Gives (spec.close_body tag layout.now line self.old) self.old self.new result }
    {
        let size = layout.body_size();
        if size > u64::from(SIZE_LIMIT) {
            return Err(Refused::At(self.fault(C_LARGE, line)));
        }
        let mut body = Text::new(alloc);
        put_body(&mut body, layout.word, size as u32, layout.text.bytes())?;
        let extent = Extent {
            size: size as u32,
            alignment: layout.alignment,
        };
        Ok(self.close(tag, extent, body)?)
    }
}
