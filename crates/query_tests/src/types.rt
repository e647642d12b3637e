//! Definitions, names and listings as answers.

use crate::answers::{end_line, put_number, put_word};
use crate::entries::{cut, number};
use crate::head::Head;
use crate::outlines::{put_none, put_symbol, put_unit};
use st_base::{Memory, Text};
use stab_grammar::{Key, print_type};
use stab_units::Unit;
use std::alloc::Global;
use type_graph::{definition, find_tag, find_typedef, listing, type_name};

// The key that a row spells, its file and its number.
fn key_in(row: &[u8]) -> Key {
    let (file, row) = cut(row, b' ');
    Key {
        file: number(10, file),
        number: number(10, row),
    }
}

fn put_key(key: Key, out: &mut Text) -> Result<(), Memory> {
    put_number(u64::from(key.file), out)?;
    put_number(u64::from(key.number), out)?;
    end_line(out)
}

fn put_definition(unit: &Unit, key: Key, out: &mut Text) -> Result<(), Memory> {
    match definition(unit, key) {
        Some(tree) => {
            put_word(b"", out)?;
            print_type(tree, out)?;
            end_line(out)
        }
        None => put_none(out),
    }
}

fn put_type_name(unit: &Unit, key: Key, out: &mut Text) -> Result<(), Memory> {
    match type_name(unit, key) {
        Some(symbol) => put_symbol(symbol, out),
        None => put_none(out),
    }
}

fn put_found(found: Option<Key>, out: &mut Text) -> Result<(), Memory> {
    match found {
        Some(key) => put_key(key, out),
        None => put_none(out),
    }
}

fn put_listing(alloc: Global, unit: &Unit, key: Key, out: &mut Text) -> Result<(), Memory> {
    let listing = listing(alloc, unit, key)?;
    for key in listing.keys.items() {
        put_key(*key, out)?;
    }
    Ok(())
}

fn put_about_key(
    alloc: Global,
    unit: &Unit,
    head: Head,
    key: Key,
    out: &mut Text,
) -> Result<(), Memory> {
    match head {
        Head::Definition => put_definition(unit, key, out),
        Head::TypeName => put_type_name(unit, key, out),
        Head::Listing => put_listing(alloc, unit, key, out),
        _ => Err(Memory),
    }
}

/// The answer of a call about a unit, or about a key or a name that the row spells.
pub fn put_about(
    alloc: Global,
    unit: &Unit,
    head: Head,
    row: &[u8],
    out: &mut Text,
) -> Result<(), Memory> {
    match head {
        Head::Unit => put_unit(unit, out),
        Head::FindTag => put_found(find_tag(unit, row), out),
        Head::FindTypedef => put_found(find_typedef(unit, row), out),
        head => put_about_key(alloc, unit, head, key_in(row), out),
    }
}
