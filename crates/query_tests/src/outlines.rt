//! Outlines, units and externals as answers.

ghost use Rattle.std.specs.Prelude.{◌≡◌, ◌<◌, ◌^◌, length};
ghost use Rattle.unit_outlines.specs.Outlines.{IsOutlined};

use crate::answers::{
    end_line, put_bounds, put_extent, put_hex2, put_hex8, put_last_name, put_line, put_number,
    put_word,
};
use nlist_codec::Named;
use st_base::{List, Memory, Refused, Steps, Text};
use stab_grammar::{Symbol, print};
use stab_units::{
    HeaderFile, HeaderMark, Item, ItemText, Marks, Unit, UnitSpan, outline, read_unit,
};
use std::alloc::Global;
use std::marker::Brand;
use std::sync::ledger::{Blank, Ledger};
use type_graph::externals;

/// The most entries of a row's list.
const MOST: usize = 200_000;

// ---- outlines

fn put_header(header: &HeaderMark, out: &mut Text) -> Result<(), Memory> {
    let word = if header.excluded {
        b"excluded".as_slice()
    } else {
        b"header".as_slice()
    };
    put_word(word, out)?;
    put_extent(header.first, header.past, out)?;
    put_hex8(header.value, out)?;
    put_last_name(header.name.bytes(), out)
}

fn put_headers(headers: &[HeaderMark], out: &mut Text) -> Result<(), Memory> {
    for header in headers {
        put_header(header, out)?;
    }
    Ok(())
}

fn put_span(span: &UnitSpan, out: &mut Text) -> Result<(), Memory> {
    put_word(b"unit", out)?;
    put_extent(span.first, span.past, out)?;
    put_bounds(span.start, span.end, out)?;
    put_last_name(span.name.bytes(), out)?;
    put_headers(span.headers.items(), out)
}

fn put_spans(spans: &[UnitSpan], out: &mut Text) -> Result<(), Memory> {
    for span in spans {
        put_span(span, out)?;
    }
    Ok(())
}

/// The outline of entries: of each unit the first and the past entry, start, end and name, and of each of its headers the first and
/// the past entry, the value and the name.
pub fn outline_text(
    alloc: Global,
    entries: &List<Named>,
    text_end: u32,
    marks: Marks,
) -> Result<Text, Refused> {
    if entries.len() > MOST {
        return Err(Refused::Memory);
    }
    let spans = outline(alloc, entries, text_end, marks)?;
    let mut out = Text::new(alloc);
    put_spans(spans.items(), &mut out)?;
    Ok(out)
}

// ---- units

fn read_counted<L: Ledger>(
    alloc: Global,
    entries: &List<Named>,
    span: &UnitSpan,
    blank: Blank,
) -> Result<Unit, Refused>
    requires few { length entries.now < 2 ^ 32 }
    requires outlined { IsOutlined entries.now span.now }
    requires name { blank.name ≡ L.name }
    requires parts { blank.parts ≡ L.parts }
    requires whole { blank.parts ≡ 1 }
{
    let mut steps = Steps::<L>::new(blank);
    read_unit(alloc, entries, span, &mut steps)
}

/// The unit of this number, as an image has it.
pub fn unit_of(
    alloc: Global,
    entries: &List<Named>,
    text_end: u32,
    number: u32,
) -> Result<Unit, Refused> {
    if entries.len() > MOST {
        return Err(Refused::Memory);
    }
    let spans = outline(alloc, entries, text_end, Marks::Image)?;
    match spans.get(number as usize) {
        Some(span) => read_counted::<Brand>(alloc, entries, span, Blank::new(1)),
        None => Err(Refused::Memory),
    }
}

/// Appends the spelling of a symbol as the last word of a line.
pub fn put_symbol(symbol: &Symbol, out: &mut Text) -> Result<(), Memory> {
    put_word(b"", out)?;
    print(symbol, out)?;
    end_line(out)
}

fn put_symbols(symbols: &[Symbol], out: &mut Text) -> Result<(), Memory> {
    for symbol in symbols {
        put_word(b"symbol", out)?;
        put_symbol(symbol, out)?;
    }
    Ok(())
}

fn put_files(files: &[HeaderFile], out: &mut Text) -> Result<(), Memory> {
    for file in files {
        put_word(b"file", out)?;
        put_last_name(file.name.bytes(), out)?;
        put_symbols(file.symbols.items(), out)?;
    }
    Ok(())
}

fn put_item_text(text: &ItemText, out: &mut Text) -> Result<(), Memory> {
    match text {
        ItemText::Symbol(symbol) => {
            put_word(b"symbol", out)?;
            put_symbol(symbol, out)
        }
        ItemText::Raw(text) => {
            put_word(b"raw", out)?;
            put_last_name(text.bytes(), out)
        }
    }
}

fn put_codes(kind: u8, other: u8, out: &mut Text) -> Result<(), Memory> {
    put_hex2(kind, out)?;
    put_hex2(other, out)
}

fn put_item(item: &Item, out: &mut Text) -> Result<(), Memory> {
    put_word(b"item", out)?;
    put_codes(item.kind, item.other, out)?;
    put_number(u64::from(item.desc), out)?;
    put_hex8(item.value, out)?;
    put_item_text(&item.text, out)
}

fn put_body(body: &[Item], out: &mut Text) -> Result<(), Memory> {
    for item in body {
        put_item(item, out)?;
    }
    Ok(())
}

/// A unit: start, end and name, each file with its symbols, and each item of the body with kind, other, desc, value and text.
pub fn put_unit(unit: &Unit, out: &mut Text) -> Result<(), Memory> {
    put_word(b"unit", out)?;
    put_bounds(unit.start, unit.end, out)?;
    put_last_name(unit.name.bytes(), out)?;
    put_files(unit.files.items(), out)?;
    put_body(unit.body.items(), out)
}

// ---- externals

/// The value and the name of each external.
pub fn externals_text(alloc: Global, entries: &List<Named>) -> Result<Text, Memory> {
    let externals = externals(alloc, entries)?;
    let mut out = Text::new(alloc);
    for external in externals.items() {
        put_hex8(external.value, &mut out)?;
        put_last_name(external.name.bytes(), &mut out)?;
    }
    Ok(out)
}

/// Appends the line that says that nothing is there.
pub fn put_none(out: &mut Text) -> Result<(), Memory> {
    put_line(b"none", out)
}
