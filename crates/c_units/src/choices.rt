ghost use Rattle.std.specs.Prelude.{◌≡◌, ◌++◌, OnOk, IfOk, false};
ghost use Rattle.c_types.specs.Acts.{Acts};
ghost use Rattle.c_units.specs.Choices as spec;

use crate::draft::Draft;
use crate::tags::NUMBER_LIMIT;
use c_types::{Alignment, CType, Extent, Mention};
use st_base::{C_LARGE, Memory, Refused, Text, put_number};
use std::alloc::Global;

/// A value of a choice: its size, and whether it is below 0.
#[derive(Clone, Copy, Debug, Drop)]
pub struct Whole {
    pub below: bool,
    pub size: u32,
}

/// The choices of an enum so far, as they are written, and the value that the next one has unless it says another.
#[derive(Drop)]
pub struct Listed {
    pub text: Text,
    pub next: Whole,
}

impl Whole {
    // Over the limit of choices.
    fn is_large(self) -> bool
        ensures { result ≡ spec.is_large self }
    {
        !self.below && self.size > NUMBER_LIMIT
    }

    // The value and 1.
    fn next(self) -> Whole
        requires { spec.is_large self ≡ false }
        ensures { result ≡ spec.next_whole self }
    {
        if !self.below {
            return Whole {
                below: false,
                size: self.size + 1,
            };
        }
        if self.size <= 1 {
            return Whole {
                below: false,
                size: 1 - self.size,
            };
        }
        Whole {
            below: true,
            size: self.size - 1,
        }
    }

    fn put(self, out: &mut Text) -> Result<(), Memory>
        ensures { OnOk result (out.new ≡ out.old ++ spec.whole_text self) }
    {
        if self.size == 0 {
            return out.push(b'0');
        }
        if self.below {
            out.push(b'-')?;
        }
        put_number(u64::from(self.size), out)
    }
}

fn put_choice(out: &mut Text, name: &[u8], value: Whole) -> Result<(), Memory>
    ensures { OnOk result (out.new ≡ out.old ++ spec.choice_text name.now value) }
{
    out.extend(name)?;
    out.push(b':')?;
    value.put(out)?;
    out.push(b',')
}

fn put_enum(out: &mut Text, choices: &[u8]) -> Result<(), Memory>
    ensures { OnOk result (out.new ≡ out.old ++ spec.enum_with choices.now) }
{
    out.push(b'e')?;
    out.extend(choices)?;
    out.push(b';')
}

impl Listed {
    /// No choice yet. Takes no memory.
    pub fn new(alloc: Global) -> Listed
        ensures { result ≡ spec.no_choices }
    {
        Listed {
            text: Text::new(alloc),
            next: Whole {
                below: false,
                size: 0,
            },
        }
    }
}

impl Draft {
    /// A choice is added, with the value that is written or the next one. Refused as `C_LARGE`, at the token that ends it, where its
    /// value is over 2,147,483,647.
    #[tactic(auto, unfolding(crate::specs::Choices::add_choice))]
    pub fn add_choice(
        &self,
        listed: &mut Listed,
        name: &[u8],
        value: Option<Whole>,
        line: u64,
    ) -> Result<(), Refused>
        ensures { Acts (spec.add_choice name.now value line self.now listed.old) listed.old listed.new result }
    {
        let value = value.unwrap_or(listed.next);
        if value.is_large() {
            return Err(Refused::At(self.fault(C_LARGE, line)));
        }
        put_choice(&mut listed.text, name, value)?;
        listed.next = value.next();
        Ok(())
    }

    /// The choices end; the type is that of the tag, or the choices themselves where there is none.
    #[tactic(auto, unfolding(crate::specs::Choices::close_enum))]
    pub fn close_enum(
        &mut self,
        alloc: Global,
        tag: Option<Mention>,
        listed: &Listed,
    ) -> Result<CType, Memory>
        ensures { IfOk result (λ t. (t, self.new) ≡ spec.close_enum tag listed.now self.old) }
    {
        let mut body = Text::new(alloc);
        put_enum(&mut body, listed.text.bytes())?;
        let extent = Extent {
            size: 4,
            alignment: Alignment::Four,
        };
        self.close(tag, extent, body)
    }
}
