//! Header ranges as lines.

ghost use Rattle.std.specs.Prelude.{◌≡◌};

use crate::answers::{end_line, put_hex8, put_last_name, put_name, put_number, put_word};
use bincl_match::{Grouping, RangeOf, alone, instance_of, kept_of, ranges};
use nlist_codec::Named;
use st_base::{List, Memory, Refused, Steps, Text};
use std::alloc::Global;
use std::marker::Brand;
use std::sync::ledger::{Blank, Ledger};

fn yes_or_no(flag: bool) -> &'static [u8] {
    if flag {
        b"yes".as_slice()
    } else {
        b"no".as_slice()
    }
}

// Unit, file, name, sum, whether it is a candidate, kept range, instance, and the numbers.
fn put_range(range: &RangeOf, kept: u32, instance: u32, out: &mut Text) -> Result<(), Memory> {
    put_number(u64::from(range.unit), out)?;
    put_number(u64::from(range.file), out)?;
    put_name(range.name.bytes(), out)?;
    put_hex8(range.sum, out)?;
    put_word(yes_or_no(range.candidate), out)?;
    put_number(u64::from(kept), out)?;
    put_hex8(instance, out)?;
    for number in range.numbers.items() {
        put_number(u64::from(*number), out)?;
    }
    end_line(out)
}

fn put_shapes(range: &RangeOf, out: &mut Text) -> Result<(), Memory> {
    for shape in range.shape.items() {
        put_word(b"shape", out)?;
        put_last_name(shape.bytes(), out)?;
    }
    Ok(())
}

fn put_ranges(ranges: &[RangeOf], grouping: &Grouping, out: &mut Text) -> Result<(), Memory> {
    for (at, range) in ranges.iter().enumerate() {
        if at < grouping.kept.len() && at < grouping.instance.len() {
            put_range(range, kept_of(grouping, at), instance_of(grouping, at), out)?;
        }
        put_shapes(range, out)?;
    }
    Ok(())
}

fn counted<L: Ledger>(
    alloc: Global,
    entries: &List<Named>,
    text_end: u32,
    blank: Blank,
) -> Result<Text, Refused>
    requires name { blank.name ≡ L.name }
    requires parts { blank.parts ≡ L.parts }
    requires whole { blank.parts ≡ 1 }
{
    let mut steps = Steps::<L>::new(blank);
    let mut out = Text::new(alloc);
    if entries.len() > 200_000 {
        return Err(Refused::Memory);
    }
    let ranges = ranges(alloc, entries, text_end, &mut steps)?;
    let grouping = alone(alloc, &ranges)?;
    put_ranges(ranges.items(), &grouping, &mut out)?;
    Ok(out)
}

/// The lines of all ranges of the entries, where text ends at this address.
pub fn ranges_text(alloc: Global, entries: &List<Named>, text_end: u32) -> Result<Text, Refused> {
    counted::<Brand>(alloc, entries, text_end, Blank::new(1))
}
