ghost use Rattle.std.specs.Prelude.{◌≡◌, ◌++◌, IfOk, OnOk, codes, slice_get};
ghost use Rattle.c_types.specs.Acts.{Acts, Gives, with_same};
ghost use Rattle.c_units.specs.Drafts.{fault as fault_in, next_number as number_of};
ghost use Rattle.c_units.specs.Tags as spec;
ghost use Rattle.c_types.specs.Types as types;
ghost use Rattle.c_types.specs.Named.{name_at};
ghost use Rattle.c_types.specs.Lines as lines;

use crate::draft::Draft;
use c_types::{
    CType, Extent, Mention, Names, Size, Spelling, Tag, TypeNumber, Word, put_symbol_end,
    put_type_number,
};
use st_base::{C_AGAIN, C_LARGE, C_UNKNOWN, Fault, List, Memory, Refused, Text};

/// The greatest number of a type in a file.
pub const NUMBER_LIMIT: u32 = 2_147_483_647;

fn put_front(out: &mut Text, names: &Names, mention: Mention) -> Result<(), Memory>
    ensures { OnOk result (out.new ≡ out.old
        ++ (lines.stabs_front ++ lines.definition_front (name_at names.now mention.place) (codes "T") mention.number)) }
{
    out.extend(b".stabs \"")?;
    names.put(mention.place, out)?;
    out.extend(b":T")?;
    put_type_number(out, mention.number)?;
    out.push(b'=')
}

fn put_tag(out: &mut Text, names: &Names, mention: Mention, body: &[u8]) -> Result<(), Memory>
    ensures { OnOk result (out.new ≡ out.old
        ++ lines.definition_line (name_at names.now mention.place) (codes "T") mention.number body.now) }
{
    put_front(out, names, mention)?;
    out.extend(body)?;
    put_symbol_end(out)
}

fn put_cross(out: &mut Text, names: &Names, mention: Mention) -> Result<(), Memory>
    ensures { OnOk result (out.new ≡ out.old ++ spec.cross_line (name_at names.now mention.place) mention.word mention.number) }
{
    put_front(out, names, mention)?;
    out.push(b'x')?;
    out.push(mention.word.letter())?;
    names.put(mention.place, out)?;
    out.push(b':')?;
    put_symbol_end(out)
}

// A tag whose body has ended has an extent; no other changes.
fn set_extent(tags: &mut List<Tag>, place: usize, extent: Extent)
    ensures { tags.new ≡ spec.set_extent place (slice_get tags.old place) extent tags.old }
{
    if let Some(tag) = tags.get(place) {
        let tag = Tag {
            extent: Some(extent),
            ..*tag
        };
        let _before = tags.replace(place, tag);
    }
}

impl Draft {
    /// The number that the next type of the file gets. Takes no memory.
    pub fn next_number(&self) -> TypeNumber
        ensures { result ≡ number_of self.now }
    {
        TypeNumber {
            file: self.file,
            number: self.next,
        }
    }

    /// The type of a name in front of a declarator. Refused as `C_UNKNOWN` where the name is no typedef. Takes no memory.
    #[tactic(auto, unfolding(crate::specs::Tags::typedef_type))]
    pub fn typedef_type(&self, name: &[u8], line: u64) -> Result<CType, Fault>
        ensures { result ≡ spec.typedef_type name.now line self.now }
    {
        match self.typedefs.get(name) {
            Some(typedef) => Ok(CType {
                spelling: Spelling::Numbered(typedef.number),
                size: typedef.size,
            }),
            None => Err(self.fault(C_UNKNOWN, line)),
        }
    }

    // The tag at this place is mentioned again.
    fn mention_again(&self, place: usize, word: Word, line: u64) -> Result<Mention, Fault>
        ensures { with_same self.now result ≡ spec.mentioned_again place (slice_get self.now.tags place) word (fault_in C_AGAIN line self.now) self.now }
    {
        match self.tags.get(place) {
            Some(tag) if tag.word.letter() == word.letter() => Ok(Mention {
                place,
                word,
                number: tag.number,
                first: false,
            }),
            _ => Err(self.fault(C_AGAIN, line)),
        }
    }

    /// A tag is met behind this word. Refused as `C_AGAIN` where its first mention has another word, and as `C_LARGE` where the file
    /// has no number left for a new tag.
    #[tactic(auto, unfolding(crate::specs::Tags::mention))]
    pub fn mention(&mut self, word: Word, name: &[u8], line: u64) -> Result<Mention, Refused>
        ensures { Gives (spec.mention word name.now line self.old) self.old self.new result }
    {
        if let Some(place) = self.tag_names.place(name) {
            return match self.mention_again(place, word, line) {
                Ok(mention) => Ok(mention),
                Err(again) => Err(Refused::At(again)),
            };
        }
        if self.next > NUMBER_LIMIT {
            return Err(Refused::At(self.fault(C_LARGE, line)));
        }
        let number = self.next_number();
        let place = self.tags.len();
        self.tag_names.add(name)?;
        self.tags.push(Tag {
            word,
            number,
            begun: false,
            extent: None,
        })?;
        self.next += 1;
        Ok(Mention {
            place,
            word,
            number,
            first: true,
        })
    }

    /// A tag has no body where it is mentioned: the first mention gives a cross reference.
    #[tactic(auto, unfolding(crate::specs::Tags::cross))]
    pub fn cross(&mut self, mention: Mention) -> Result<(), Memory>
        ensures { OnOk result (self.new ≡ spec.cross mention self.old) }
    {
        if mention.first {
            put_cross(&mut self.text, &self.tag_names, mention)?;
        }
        Ok(())
    }

    /// A body begins behind a tag. Refused as `C_AGAIN`, at the tag, where one has begun before.
    #[tactic(auto, unfolding(crate::specs::Tags::begin_body))]
    pub fn begin_body(&mut self, mention: Mention, line: u64) -> Result<(), Refused>
        ensures { Acts (spec.begin_body mention line self.old) self.old self.new result }
    {
        if let Some(tag) = self.tags.get(mention.place) {
            if tag.begun {
                return Err(Refused::At(self.fault(C_AGAIN, line)));
            }
            let tag = Tag {
                begun: true,
                ..*tag
            };
            let _before = self.tags.replace(mention.place, tag);
        }
        Ok(())
    }

    // The body of a tag has ended: its symbol is complete, and the tag has an extent.
    #[tactic(auto, unfolding(crate::specs::Tags::complete))]
    fn complete(&mut self, mention: Mention, extent: Extent, body: &[u8]) -> Result<(), Memory>
        ensures { OnOk result (self.new ≡ spec.complete mention extent body.now self.old) }
    {
        put_tag(&mut self.text, &self.tag_names, mention, body)?;
        set_extent(&mut self.tags, mention.place, extent);
        Ok(())
    }

    /// A body has ended that is written so. The type is that of its tag, or the body itself where it has none.
    pub(crate) fn close(
        &mut self,
        tag: Option<Mention>,
        extent: Extent,
        body: Text,
    ) -> Result<CType, Memory>
        ensures { IfOk result (λ t. (t, self.new) ≡ spec.closed tag extent body self.old) }
    {
        match tag {
            Some(mention) => {
                self.complete(mention, extent, body.bytes())?;
                Ok(CType::of_tag(mention))
            }
            None => Ok(CType {
                spelling: Spelling::Body(body),
                size: Size::Known(extent),
            }),
        }
    }
}
