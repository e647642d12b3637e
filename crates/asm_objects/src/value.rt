ghost use Rattle.std.specs.Prelude.{◌≡◌, ◌+◌, ◌<◌, ◌≤◌, ◌^◌};
ghost use Rattle.asm_objects.specs.Emitting.{TableFits};
ghost use Rattle.asm_statements.specs.Fits.{SumFits};
ghost use Rattle.asm_objects.specs.Layout.{Room};
ghost use Rattle.asm_objects.specs.Meaning as spec;

use crate::table::{Definition, Home, Places, Table, home_of, offset_in};
use asm_statements::{Expression, Name};
use nlist_codec::{BSS_SEGMENT, DATA_SEGMENT, TEXT_SEGMENT, UNDEFINED_EXTERNAL};

/// The kind of an entry that is defined there.
pub(crate) fn kind_of(home: Home) -> u8
    ensures value { result ≡ spec.kind_of home }
    ensures small { result ≤ 8 }
{
    match home {
        Home::Text => TEXT_SEGMENT,
        Home::Data => DATA_SEGMENT,
        Home::Bss => BSS_SEGMENT,
        Home::Common => UNDEFINED_EXTERNAL,
    }
}

// The address where the segment of a definition begins.
fn base(table: &Table, home: Home) -> u128
    requires { TableFits table.now }
    ensures value { result ≡ spec.base table.now home }
    ensures small { result < 2 ^ 126 }
{
    let entry = u128::from(table.entry);
    let text = table.end.text;
    let datum = table.end.datum;
    match home {
        Home::Text => entry,
        Home::Data => entry + text,
        Home::Bss => entry + text + datum,
        Home::Common => 0,
    }
}

pub(crate) fn address(table: &Table, definition: Definition) -> u128
    requires table { TableFits table.now }
    requires offset { definition.offset < 2 ^ 124 }
    ensures value { result ≡ spec.address table.now definition }
    ensures small { result < 2 ^ 127 }
{
    base(table, definition.home) + definition.offset
}

/// The definition that `.` stands for.
pub(crate) fn here(places: Places) -> Definition
    ensures { result ≡ spec.here places }
{
    Definition {
        home: home_of(places.part),
        offset: offset_in(places),
        number: places.number,
    }
}

fn unless_common(definition: Definition) -> Option<Definition>
    ensures { result ≡ spec.unless_common definition.home definition }
{
    match definition.home {
        Home::Text => Some(definition),
        Home::Data => Some(definition),
        Home::Bss => Some(definition),
        Home::Common => None,
    }
}

fn with_address(definition: Option<Definition>) -> Option<Definition>
    ensures { result ≡ spec.with_address definition }
{
    match definition {
        None => None,
        Some(definition) => unless_common(definition),
    }
}

/// Where a name of an expression is defined here.
pub(crate) fn found(table: &Table, places: Places, name: &Name) -> Option<Definition>
    ensures { result ≡ spec.found table.now places name.now }
{
    match name {
        Name::Here => Some(here(places)),
        Name::Named(name) => with_address(table.names.get(name.bytes())),
    }
}

#[tactic(auto, using(crate::proofs::PlaceLemmas::found_small))]
// The address of a name, 0 where it has none here.
fn address_or_0(table: &Table, places: Places, name: &Name) -> u128
    requires table { TableFits table.now }
    requires room { Room places 1 }
    ensures value { result ≡ spec.address_or_0 table.now (spec.found table.now places name.now) }
    ensures small { result < 2 ^ 127 }
{
    match found(table, places, name) {
        None => 0,
        Some(definition) => address(table, definition),
    }
}

fn address_of(table: &Table, places: Places, names: &[Name]) -> u128
    requires table { TableFits table.now }
    requires room { Room places 1 }
    ensures value { result ≡ spec.address_of table.now places names.now }
    ensures small { result < 2 ^ 127 }
{
    match names {
        [] => 0,
        [first, ..] => address_or_0(table, places, first),
    }
}

/// What is added in an expression.
pub(crate) fn plus(table: &Table, places: Places, sum: &Expression) -> u128
    requires table { TableFits table.now }
    requires room { Room places 1 }
    requires sum { SumFits sum.now }
    ensures value { result ≡ spec.plus table.now places sum.now }
    ensures small { result < 2 ^ 127 + 2 ^ 100 }
{
    address_of(table, places, sum.added()) + sum.more()
}

/// What is subtracted in an expression.
pub(crate) fn minus(table: &Table, places: Places, sum: &Expression) -> u128
    requires table { TableFits table.now }
    requires room { Room places 1 }
    requires sum { SumFits sum.now }
    ensures value { result ≡ spec.minus table.now places sum.now }
    ensures small { result < 2 ^ 127 + 2 ^ 100 }
{
    address_of(table, places, sum.taken()) + sum.less()
}

/// Whether the value is from -low to high.
pub(crate) fn in_range(low: u32, high: u32, more: u128, less: u128) -> bool
    requires more { more < 2 ^ 127 + 2 ^ 100 }
    requires less { less < 2 ^ 127 + 2 ^ 100 }
    ensures { result ≡ spec.in_range low high more less }
{
    less <= more + u128::from(low) && more <= less + u128::from(high)
}

/// The value modulo 2^32.
pub(crate) fn word(more: u128, less: u128) -> u32
    requires more { more < 2 ^ 127 + 2 ^ 100 }
    requires less { less < 2 ^ 127 + 2 ^ 100 }
    ensures { result ≡ spec.word more less }
{
    ((more + 4294967296).saturating_sub(less) % 4294967296) as u32
}
