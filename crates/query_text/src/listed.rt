//! The text of a listing: the number of its keys, and a line for each.

ghost use Rattle.std.specs.Prelude.{◌≡◌, ◌++◌, IfOk, OnOk};
ghost use Rattle.std.specs.Option.{option_copied};
ghost use Rattle.query_text.specs.Listed as spec;

use indexmap::IndexSet;
use st_base::{Memory, Text, put_number, show};
use stab_grammar::{Key, Symbol, TypeTree, letters_of, print_placed_by};
use stab_units::Unit;
use std::alloc::Global;
use type_graph::{KeySet, TypeIndex, listed};

/// `CLASS NAME` of a key, by the symbol that names it.
fn put_name(name: Option<&Symbol>, out: &mut Text) -> Result<(), Memory>
    ensures { OnOk result (out.new ≡ out.old ++ spec.name_text (option_copied name.entry)) }
{
    match name {
        None => out.extend(b"- -"),
        Some(symbol) => {
            out.extend(letters_of(symbol.descriptor))?;
            out.push(b' ')?;
            show(out, symbol.name.bytes())
        }
    }
}

/// `I CLASS NAME` of a key.
fn put_label(place: usize, name: Option<&Symbol>, out: &mut Text) -> Result<(), Memory>
    ensures { OnOk result (out.new ≡ out.old ++ spec.label_text place (option_copied name.entry)) }
{
    put_number(place as u64, out)?;
    out.push(b' ')?;
    put_name(name, out)
}

/// `BODY` of a key, by its definition, with the places of the keys of a listing.
fn put_body(
    alloc: Global,
    places: &IndexSet<Key>,
    body: Option<&TypeTree>,
    out: &mut Text,
) -> Result<(), Memory>
    ensures { OnOk result (out.new ≡ out.old ++ spec.body_text places.now.keys (option_copied body.entry)) }
{
    match body {
        None => out.extend(b"undefined"),
        Some(body) => {
            let mut text = Text::new(alloc);
            print_placed_by(body, places, &mut text)?;
            show(out, text.bytes())
        }
    }
}

/// `I CLASS NAME BODY` of a key.
#[tactic(auto, unfolding(crate::specs::Listed::node_line))]
fn put_node(
    alloc: Global,
    places: &IndexSet<Key>,
    place: usize,
    name: Option<&Symbol>,
    body: Option<&TypeTree>,
    out: &mut Text,
) -> Result<(), Memory>
    ensures { OnOk result (out.new ≡ out.old ++ spec.node_line places.now.keys place (option_copied name.entry) (option_copied body.entry)) }
{
    put_label(place, name, out)?;
    out.push(b' ')?;
    put_body(alloc, places, body, out)?;
    out.push(b'\n')
}

fn put_nodes(
    alloc: Global,
    index: &TypeIndex<'_>,
    keys: &KeySet,
    out: &mut Text,
) -> Result<(), Memory>
    ensures { OnOk result (out.new ≡ out.old ++ spec.node_lines index.now keys.now 0 keys.now) }
{
    for (place, key) in keys.items().iter().enumerate() {
        let name = index.name(*key);
        let body = index.definition(*key);
        put_node(alloc, keys.places(), place, name, body, out)?;
    }
    Ok(())
}

// The text of a listing: the number of its keys, and for each key a line.
#[tactic(auto, unfolding(crate::specs::Listed::listing_text))]
fn text_of_keys(alloc: Global, index: &TypeIndex<'_>, keys: &KeySet) -> Result<Text, Memory>
    ensures { IfOk result (λ text. text ≡ spec.listing_text index.now keys.now) }
{
    let mut text = Text::new(alloc);
    put_number(keys.len() as u64, &mut text)?;
    text.push(b'\n')?;
    put_nodes(alloc, index, keys, &mut text)?;
    Ok(text)
}

/// The text of the listing of a key in a unit: the number of its keys, and for each key a line `I CLASS NAME BODY`.
///
/// `I` is the place of the key, counted from 0; `CLASS NAME` is the descriptor and the name of the symbol that names it, or `- -`;
/// `BODY` is its definition, in which each number is `#` and the place of its key, or `undefined`. The text is this project's own.
pub fn listing_text(alloc: Global, unit: &Unit, key: Key) -> Result<Text, Memory>
    ensures { IfOk result (spec.IsListingText unit.now key) }
{
    let index = TypeIndex::new(alloc, unit)?;
    let keys = listed(alloc, &index, key)?;
    text_of_keys(alloc, &index, &keys)
}
