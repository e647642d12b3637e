//! Tables of entries and of what is asked of them, played from the first line to the last:
//!
//!     # what the rows below are about
//!     world 300 64@100=a.c        entries from here on, where text ends at this address; an entry is written as `entries.rt` says
//!     object 300 64@100=a.c       the same, and their outline as an object; `image` as an image, and `again` that of all entries so far
//!     + 80=a:t1 80=b:t2           more entries
//!     = 80=a b:t1                 one more, whose name may hold blanks
//!     * 3 82=h.h                  one more so many times
//!     x 9 80=:t1                  one more, with so many bytes x before its name
//!     ? files 0                   a query
//!     ranges                      the header ranges of all entries so far, each kept, with its instance
//!     unit 0                      the unit of this number, as `read_unit` gives it; `definition 0 1 2` and the like ask it
//!       0 a.c                     each line of the answer, or `refused` with number, place and within
//!
//! What is played is written anew, with the answers that come, and has to be the table.

ghost use Rattle.std.specs.Prelude.{◌≡◌};

use crate::answers::{put_fault, put_line, put_lines};
use crate::entries::{cut, number, push_entries, push_long, push_many, push_one, words_of};
use crate::head::{Head, asks, head_of};
use crate::outlines::{externals_text, outline_text, unit_of};
use crate::ranges::ranges_text;
use crate::types::put_about;
use nlist_codec::Named;
use query_text::{read_query, reply_text};
use st_base::{List, Memory, Refused, Steps, Text};
use stab_units::Marks;
use std::alloc::Global;
use std::marker::Brand;
use std::process::Abort;
use std::sync::ledger::{Blank, Ledger};
use type_graph::{World, world_of};

// ---- queries

fn counted<L: Ledger>(
    alloc: Global,
    entries: &List<Named>,
    text_end: u32,
    blank: Blank,
) -> Result<World, Refused>
    requires name { blank.name ≡ L.name }
    requires parts { blank.parts ≡ L.parts }
    requires whole { blank.parts ≡ 1 }
{
    let mut steps = Steps::<L>::new(blank);
    if entries.len() > 200_000 {
        return Err(Refused::Memory);
    }
    world_of(alloc, entries, text_end, &mut steps)
}

// The reply to a query, whose words stand behind the first.
fn reply(alloc: Global, world: &World, words: &List<Text>) -> Result<Text, Refused> {
    if words.len() == 0 || world.units.len() > 1000 {
        return Err(Refused::Memory);
    }
    let query = read_query(alloc, words, 1)?;
    Ok(reply_text(alloc, world, &query)?)
}

fn asked(
    alloc: Global,
    entries: &List<Named>,
    text_end: u32,
    line: &[u8],
) -> Result<Text, Refused> {
    let world = counted::<Brand>(alloc, entries, text_end, Blank::new(1))?;
    let words = words_of(alloc, line)?;
    reply(alloc, &world, &words)
}

// ---- calls

// What a call about a unit answers, whose number stands behind the head.
fn about_unit(
    alloc: Global,
    entries: &List<Named>,
    text_end: u32,
    head: Head,
    line: &[u8],
) -> Result<Text, Refused> {
    let (_, row) = cut(line, b' ');
    let (place, row) = cut(row, b' ');
    let unit = unit_of(alloc, entries, text_end, number(10, place))?;
    let mut out = Text::new(alloc);
    put_about(alloc, &unit, head, row, &mut out)?;
    Ok(out)
}

// The answer to a line that asks.
fn told(
    alloc: Global,
    entries: &List<Named>,
    text_end: u32,
    head: Head,
    line: &[u8],
) -> Result<Text, Refused> {
    match head {
        Head::Query => asked(alloc, entries, text_end, line),
        Head::Object => outline_text(alloc, entries, text_end, Marks::Object),
        Head::Image | Head::Again => outline_text(alloc, entries, text_end, Marks::Image),
        Head::Externals => Ok(externals_text(alloc, entries)?),
        Head::Ranges => ranges_text(alloc, entries, text_end),
        head => about_unit(alloc, entries, text_end, head, line),
    }
}

fn put_told(told: Result<Text, Refused>, out: &mut Text) -> Result<(), Memory> {
    match told {
        Ok(text) => put_lines(text.bytes(), out),
        Err(Refused::Memory) => Err(Memory),
        Err(Refused::At(fault)) => put_fault(&fault, out),
    }
}

// ---- tables

#[derive(Drop)]
struct Made {
    entries: List<Named>,
    text_end: u32,
}

fn begun(alloc: Global, row: &[u8]) -> Result<Made, Memory> {
    let (text_end, row) = cut(row, b' ');
    let mut entries = List::new(alloc);
    push_entries(alloc, row, &mut entries)?;
    Ok(Made {
        entries,
        text_end: number(16, text_end),
    })
}

// The entries behind a line.
fn made_by(alloc: Global, head: Head, row: &[u8], made: Made) -> Result<Made, Memory> {
    let mut made = made;
    match head {
        Head::World | Head::Object | Head::Image => return begun(alloc, row),
        Head::More => push_entries(alloc, row, &mut made.entries)?,
        Head::One => push_one(alloc, row, &mut made.entries)?,
        Head::Many => push_many(alloc, row, &mut made.entries)?,
        Head::Long => push_long(alloc, row, &mut made.entries)?,
        _ => {}
    }
    Ok(made)
}

// Appends a line and its answer, and gives the entries behind it.
fn play(alloc: Global, line: &[u8], made: Made, out: &mut Text) -> Result<Made, Memory> {
    let (word, row) = cut(line, b' ');
    let Some(head) = head_of(word) else {
        return Err(Memory);
    };
    put_line(line, out)?;
    let made = made_by(alloc, head, row, made)?;
    if asks(head) {
        put_told(told(alloc, &made.entries, made.text_end, head, line), out)?;
    }
    Ok(made)
}

fn played(alloc: Global, table: &[u8]) -> Result<Text, Memory> {
    let mut out = Text::new(alloc);
    let mut made = Made {
        entries: List::new(alloc),
        text_end: 0,
    };
    for line in table.split(|b| *b == b'\n') {
        if !line.is_empty() && !line.starts_with(b" ") {
            made = play(alloc, line, made, &mut out)?;
        }
    }
    Ok(out)
}

// The first line that came and is not said.
fn first_other<'a>(came: &'a [u8], said: &[u8]) -> &'a [u8] {
    let mut rest = said;
    for line in came.split(|b| *b == b'\n') {
        let (wanted, behind) = cut(rest, b'\n');
        if line != wanted {
            return line;
        }
        rest = behind;
    }
    &came[..0]
}

// A text as a message shows it.
fn shown(text: &[u8]) -> &str {
    match std::str::from_utf8(text) {
        Ok(text) => text,
        Err(_) => "a text that is not UTF-8",
    }
}

/// Asserts that a table has the answers that come.
pub fn all_hold(rt: &impl Abort, alloc: Global, table: &[u8]) {
    match played(alloc, table) {
        Ok(text) => {
            let other = shown(first_other(text.bytes(), table));
            assert!(rt; text.bytes() == table, "{other}");
        }
        Err(_) => panic!(rt; "out of memory, or a row that is none"),
    }
}
