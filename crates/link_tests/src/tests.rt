//! Rows of sources, what they are linked to, and lines of the image's assembly:
//!
//! - `# ..`: what the rows below are about, and told where one fails.
//! - `order little`, `order big`: the byte order from here on.
//! - `source LINES`: one more source, whose lines `|` parts.
//! - `link BASE LINE`: the sources so far are linked at this hexadecimal address, which comes to this line: `ranges R kept K entries E`, or
//!   `refused N P W`. The next source begins another list.
//! - `merge BASE LINE`: the same, where headers are merged.
//! - `has LINE`: a line of the assembly of the image. `rows N`: so many links there were.

ghost use Rattle.std.specs.Prelude.{◌≡◌};

use crate::table::ROWS;
use aout_link::{Checked, Image, Mode, link};
use st_base::{Fault, List, Memory, Order, Refused, Steps, Text, put_number};
use stabs_asm::{assemble, list};
use std::alloc::Global;
use std::marker::Brand;
use std::process::Abort;
use std::str::from_utf8;
use std::sync::ledger::{Blank, Ledger};
use std::test::Fail;

/// What the lines so far have said.
#[derive(Drop)]
struct Table {
    alloc: Global,
    label: Text,
    order: Order,
    sources: List<Text>,
    came: Text,
    image: Text,
    rows: u64,
}

// ---- the parts of a line

fn word(line: &[u8]) -> (&[u8], &[u8]) {
    for at in 0..line.len() {
        if line[at] == b' ' {
            return (&line[..at], &line[at + 1..]);
        }
    }
    (line, &[])
}

/// The number that digits spell in a base.
fn number_of(base: u64, digits: &[u8]) -> u64 {
    let mut value = 0u64;
    for b in digits {
        let digit = match b {
            b'0'..=b'9' => *b - b'0',
            b'a'..=b'f' => *b - b'a' + 10,
            _ => 0,
        };
        value = value.wrapping_mul(base).wrapping_add(u64::from(digit));
    }
    value
}

fn source_of(alloc: Global, spelled: &[u8]) -> Result<Text, Memory> {
    let mut out = Text::new(alloc);
    for line in spelled.split(|b| *b == b'|') {
        out.extend(line)?;
        out.push(b'\n')?;
    }
    Ok(out)
}

// ---- linking

fn link_counted<L: Ledger>(
    alloc: Global,
    order: Order,
    sources: &[Text],
    base: u32,
    mode: Mode,
    blank: Blank,
) -> Result<Image, Refused>
    requires name { blank.name ≡ L.name }
    requires parts { blank.parts ≡ L.parts }
    requires whole { blank.parts ≡ 1 }
{
    let mut steps = Steps::<L>::new(blank);
    let mut objects = List::new(alloc);
    for source in sources {
        let object = assemble(alloc, source.bytes(), order)?;
        objects.push(Checked::of(alloc, object, &mut steps)?)?;
    }
    link(alloc, &objects, base, mode, &mut steps)
}

fn linked(
    alloc: Global,
    order: Order,
    sources: &[Text],
    base: u32,
    mode: Mode,
) -> Result<Image, Refused> {
    link_counted::<Brand>(alloc, order, sources, base, mode, Blank::new(1))
}

fn put_linked(image: &Image, out: &mut Text) -> Result<(), Memory> {
    out.extend(b"ranges ")?;
    put_number(u64::from(image.ranges), out)?;
    out.extend(b" kept ")?;
    put_number(u64::from(image.kept), out)?;
    out.extend(b" entries ")?;
    put_number(image.object.entries().len() as u64, out)
}

fn put_fault(fault: Fault, out: &mut Text) -> Result<(), Memory> {
    out.extend(b"refused ")?;
    put_number(u64::from(fault.number), out)?;
    out.push(b' ')?;
    put_number(fault.place, out)?;
    out.push(b' ')?;
    put_number(fault.within, out)
}

// ---- lines

impl Table {
    fn new(alloc: Global) -> Table {
        Table {
            alloc,
            label: Text::new(alloc),
            order: Order::Little,
            sources: List::new(alloc),
            came: Text::new(alloc),
            image: Text::new(alloc),
            rows: 0,
        }
    }

    fn label(&self) -> &str {
        from_utf8(self.label.bytes()).unwrap_or("a row")
    }

    /// Links the sources so far in a mode, and keeps the line that it comes to.
    fn link(&mut self, base: &[u8], mode: Mode) -> Result<(), Memory> {
        let base = u32::try_from(number_of(16, base)).unwrap_or(0);
        self.came.cut(0);
        self.image.cut(0);
        match linked(self.alloc, self.order, self.sources.items(), base, mode) {
            Ok(image) => {
                put_linked(&image, &mut self.came)?;
                self.image = list(self.alloc, &image.object)?;
            }
            Err(Refused::At(fault)) => put_fault(fault, &mut self.came)?,
            Err(Refused::Memory) => return Err(Memory),
        }
        self.sources = List::new(self.alloc);
        self.rows = self.rows.wrapping_add(1);
        Ok(())
    }

    fn came_to(&self, rt: &impl Abort, wanted: &[u8]) {
        assert_eq!(rt; self.came.bytes(), wanted, "{}", self.label());
    }

    fn has(&self, rt: &impl Abort, wanted: &[u8]) {
        let found = self
            .image
            .bytes()
            .split(|b| *b == b'\n')
            .any(|line| line == wanted);
        assert!(rt; found, "{}", self.label());
    }

    fn line(&mut self, rt: &impl Abort, line: &[u8]) -> Result<(), Memory> {
        let (kind, rest) = word(line);
        match kind {
            b"#" => self.label = Text::of(self.alloc, rest)?,
            b"order" => {
                self.order = if rest == b"big".as_slice() {
                    Order::Big
                } else {
                    Order::Little
                };
            }
            b"source" => self.sources.push(source_of(self.alloc, rest)?)?,
            b"link" | b"merge" => {
                let (base, wanted) = word(rest);
                let mode = if kind == b"merge".as_slice() {
                    Mode::Merge
                } else {
                    Mode::Keep
                };
                self.link(base, mode)?;
                self.came_to(rt, wanted);
            }
            b"has" => self.has(rt, rest),
            b"rows" => assert_eq!(rt; self.rows, number_of(10, rest), "rows"),
            _ => assert!(rt; kind.is_empty(), "{}", self.label()),
        }
        Ok(())
    }
}

#[test]
fn rows(rt: HostRuntime) -> Result<(), Fail> {
    let mut table = Table::new(rt.alloc());
    for line in ROWS.split(|b| *b == b'\n') {
        table.line(&rt, line)?;
    }
    Ok(())
}
