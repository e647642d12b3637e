ghost use Rattle.std.specs.Prelude.{◌≡◌, ◌++◌, IfOk, OnOk};
ghost use Rattle.c_types.specs.Acts.{Acts};
ghost use Rattle.c_units.specs.Files as spec;
ghost use Rattle.c_types.specs.Lines as lines;

use crate::draft::{Draft, Outer};
use c_types::{Names, Stack, Typedefs};
use st_base::{C_LARGE, List, Memory, Refused, Text};
use std::alloc::Global;

/// The symbols of the twelve basic types, by their numbers from 1, a line each.
pub const BASIC_LINES: &[u8; 759] = b"\
    .stabs \"int:t(0,1)=r(0,1);-2147483648;2147483647;\",128,0,0,0\n\
    .stabs \"char:t(0,2)=r(0,2);0;127;\",128,0,0,0\n\
    .stabs \"long int:t(0,3)=r(0,3);-2147483648;2147483647;\",128,0,0,0\n\
    .stabs \"unsigned int:t(0,4)=r(0,4);0;037777777777;\",128,0,0,0\n\
    .stabs \"unsigned long int:t(0,5)=r(0,5);0;037777777777;\",128,0,0,0\n\
    .stabs \"short int:t(0,6)=r(0,6);-32768;32767;\",128,0,0,0\n\
    .stabs \"unsigned short int:t(0,7)=r(0,7);0;65535;\",128,0,0,0\n\
    .stabs \"unsigned char:t(0,8)=r(0,8);0;255;\",128,0,0,0\n\
    .stabs \"signed char:t(0,9)=r(0,9);-128;127;\",128,0,0,0\n\
    .stabs \"void:t(0,10)=(0,10)\",128,0,0,0\n\
    .stabs \"long long int:t(0,11)=@s64;r(0,11);01000000000000000000000;0777777777777777777777;\",128,0,0,0\n\
    .stabs \"unsigned long long int:t(0,12)=@s64;r(0,12);0;01777777777777777777777;\",128,0,0,0\n";

/// The number of the first type of the main source.
const FIRST_NUMBER: u32 = 13;

/// The greatest number of a file in a unit.
const FILE_NUMBER_LIMIT: u32 = 65535;

#[tactic(auto, unfolding(crate::specs::Files::basic_lines))]
fn basic_lines() -> &'static [u8]
    ensures { result.now ≡ spec.basic_lines }
{
    BASIC_LINES
}

#[tactic(auto, unfolding(c_types::specs::Lines::text_front))]
fn put_text_front(out: &mut Text) -> Result<(), Memory>
    ensures { OnOk result (out.new ≡ out.old ++ lines.text_front) }
{
    out.extend(b"\",100,0,0,Ltext0\n.text\nLtext0:\n")
}

#[tactic(auto, unfolding(crate::specs::Files::front_lines))]
fn front(alloc: Global, main: &[u8]) -> Result<Text, Memory>
    ensures { IfOk result (λ t. t ≡ spec.front_lines main.now) }
{
    let mut out = Text::new(alloc);
    out.extend(b".stabs \"")?;
    out.extend(main)?;
    put_text_front(&mut out)?;
    out.extend(basic_lines())?;
    Ok(out)
}

fn put_header(out: &mut Text, name: &[u8]) -> Result<(), Memory>
    ensures { OnOk result (out.new ≡ out.old ++ lines.header_line name.now) }
{
    out.extend(b".stabs \"")?;
    out.extend(name)?;
    out.extend(b"\",130,0,0,0\n")
}

impl Draft {
    /// A unit before its first item: its first lines, with the name of the main source, and the twelve basic types.
    #[tactic(auto, unfolding(crate::specs::Files::begun))]
    pub fn new(alloc: Global, main: &[u8]) -> Result<Draft, Memory>
        ensures { IfOk result (λ u. u ≡ spec.begun main.now) }
    {
        Ok(Draft {
            place: 0,
            file: 0,
            next: FIRST_NUMBER,
            outer: Stack::new(alloc),
            headers: 0,
            tag_names: Names::new(alloc),
            tags: List::new(alloc),
            typedefs: Typedefs::new(alloc),
            names: Names::new(alloc),
            statics: 0,
            offset: 0,
            params: Names::new(alloc),
            blocks: 0,
            scopes: Stack::new(alloc),
            text: front(alloc, main)?,
        })
    }

    /// The whole text of a unit, with its last lines.
    #[tactic(auto, unfolding(crate::specs::Files::finished))]
    pub fn finish(self) -> Result<Text, Memory>
        ensures { IfOk result (λ t. t ≡ spec.finished self) }
    {
        let mut text = self.text;
        text.extend(b"Letext:\n.stabn 100,0,0,Letext\n")?;
        Ok(text)
    }

    /// A header begins: the file of this place among the given ones, and of this name, with the next number of a file. Refused as
    /// `C_LARGE` at the line of its include where 65,535 headers have begun.
    #[tactic(auto, unfolding(crate::specs::Files::enter))]
    pub fn enter(&mut self, place: u64, name: &[u8], line: u64) -> Result<(), Refused>
        ensures { Acts (spec.enter place name.now line self.old) self.old self.new result }
    {
        if self.headers >= FILE_NUMBER_LIMIT {
            return Err(Refused::At(self.fault(C_LARGE, line)));
        }
        self.outer.push(Outer {
            place: self.place,
            file: self.file,
            next: self.next,
        })?;
        put_header(&mut self.text, name)?;
        self.headers += 1;
        self.place = place;
        self.file = self.headers;
        self.next = 1;
        Ok(())
    }

    /// The header ends that is read, and the file around it goes on. Nothing happens in the main source.
    #[tactic(auto, unfolding(crate::specs::Files::leave))]
    pub fn leave(&mut self) -> Result<(), Memory>
        ensures { OnOk result (self.new ≡ spec.leave self.old) }
    {
        if let Some(outer) = self.outer.pop() {
            self.text.extend(b".stabn 162,0,0,0\n")?;
            self.place = outer.place;
            self.file = outer.file;
            self.next = outer.next;
        }
        Ok(())
    }
}
