ghost use Rattle.std.specs.Prelude.{◌≡◌, ◌<◌, ◌==◌, ◌^◌, ◌∷◌, []};
ghost use Rattle.std.specs.Prelude as prelude;
ghost use Rattle.std.specs.List.{list_any};
ghost use Rattle.asm_objects.specs.Emitting.{TableFits};
ghost use Rattle.asm_statements.specs.Fits.{AllFit, StatementFits, SumFits};
ghost use Rattle.asm_objects.specs.Layout as layout;
ghost use Rattle.asm_objects.specs.Layout.{Room};
ghost use Rattle.asm_objects.specs.Meaning as spec;

use crate::limits::{GREATEST_POWER, SPACE_LIMIT, SYMBOL_LIMIT};
use crate::table::{Definition, Places, Table, after, is_local, start};
use crate::value::{address, found, in_range, kind_of, minus, plus};
use aout_layout::TWO_ORDERS;
use asm_statements::{Expression, Name, Plain, Rel, Stab, Statement, What, Width};
use nlist_codec::{ABSOLUTE_SEGMENT, BSS_SEGMENT, DATA_SEGMENT, TEXT_SEGMENT};
use st_base::{Fault, GREATEST_ADDRESS, LINE_MIXED, LINE_RANGE, LINE_TWICE, LINE_UNDEFINED};

/// How an expression is used: as the value of a stab, or in a data field.
#[derive(Clone, Copy, Drop)]
pub enum Use {
    Value,
    Field,
}

// Whether a name is not defined here.
fn lacks(table: &Table, places: Places, names: &[Name]) -> bool
    ensures { result ≡ spec.lacks table.now places names.now }
{
    names.iter().any(|x| found(table, places, x).is_none())
}

fn lost(table: &Table, name: &Name) -> bool
    ensures { result ≡ spec.lost table.now name.now }
{
    match name {
        Name::Here => false,
        Name::Named(name) => { is_local(name.bytes()) && table.names.get(name.bytes()).is_none() }
    }
}

fn any_lost(table: &Table, names: &[Name]) -> bool
    ensures { result ≡ list_any (spec.lost table.now) names.now }
{
    names.iter().any(|x| lost(table, x))
}

// Whether names that have to be defined here are not.
fn missing(table: &Table, places: Places, used: Use, added: &[Name], taken: &[Name]) -> bool
    ensures { result ≡ spec.missing table.now places used added.now taken.now }
{
    match used {
        Use::Value => lacks(table, places, added) || lacks(table, places, taken),
        Use::Field => match taken {
            [] => any_lost(table, added),
            _ => lacks(table, places, added) || lacks(table, places, taken),
        },
    }
}

fn apart(one: Option<Definition>, other: Option<Definition>) -> bool
    ensures { result ≡ spec.apart one other }
{
    match one {
        None => true,
        Some(one) => match other {
            None => true,
            Some(other) => kind_of(one.home) != kind_of(other.home),
        },
    }
}

// Whether an expression is none that has a value or is relocated.
fn mixed(table: &Table, places: Places, added: &[Name], taken: &[Name]) -> bool
    ensures { result ≡ spec.mixed table.now places added.now taken.now }
{
    match added {
        [] => match taken {
            [] => false,
            [_, ..] => true,
        },
        [x] => match taken {
            [] => false,
            [y] => apart(found(table, places, x), found(table, places, y)),
            [_, _, ..] => true,
        },
        [_, _, ..] => true,
    }
}

#[tactic(auto, using(crate::proofs::PlaceLemmas::found_small))]
// The fault of a name less another, with each looked up once.
fn pair_fault(
    table: &Table,
    places: Places,
    used: Use,
    low: u32,
    high: u32,
    sum: &Expression,
    x: &Name,
    y: &Name,
) -> Option<u16>
    requires table { TableFits table.now }
    requires room { Room places 1 }
    requires sum { SumFits sum.now }
    requires over { sum.now.over ≡ prelude.false }
    requires added { sum.now.added ≡ x.now ∷ [] }
    requires taken { sum.now.taken ≡ y.now ∷ [] }
    ensures { result ≡ spec.sum_fault table.now places used low high sum.now }
{
    match (found(table, places, x), found(table, places, y)) {
        (Some(one), Some(other)) => {
            if kind_of(one.home) != kind_of(other.home) {
                return Some(LINE_MIXED);
            }
            let more = address(table, one) + sum.more();
            let less = address(table, other) + sum.less();
            if in_range(low, high, more, less) {
                None
            } else {
                Some(LINE_RANGE)
            }
        }
        _ => Some(LINE_UNDEFINED),
    }
}

fn other_fault(
    table: &Table,
    places: Places,
    used: Use,
    low: u32,
    high: u32,
    sum: &Expression,
) -> Option<u16>
    requires table { TableFits table.now }
    requires room { Room places 1 }
    requires sum { SumFits sum.now }
    requires over { sum.now.over ≡ prelude.false }
    ensures { result ≡ spec.sum_fault table.now places used low high sum.now }
{
    if missing(table, places, used, sum.added(), sum.taken()) {
        return Some(LINE_UNDEFINED);
    }
    if mixed(table, places, sum.added(), sum.taken()) {
        return Some(LINE_MIXED);
    }
    if in_range(
        low,
        high,
        plus(table, places, sum),
        minus(table, places, sum),
    ) {
        None
    } else {
        Some(LINE_RANGE)
    }
}

fn sum_fault(
    table: &Table,
    places: Places,
    used: Use,
    low: u32,
    high: u32,
    sum: &Expression,
) -> Option<u16>
    requires table { TableFits table.now }
    requires room { Room places 1 }
    requires sum { SumFits sum.now }
    ensures { result ≡ spec.sum_fault table.now places used low high sum.now }
{
    if sum.over() {
        return Some(LINE_RANGE);
    }
    match (sum.added(), sum.taken()) {
        ([x], [y]) => pair_fault(table, places, used, low, high, sum, x, y),
        _ => other_fault(table, places, used, low, high, sum),
    }
}

fn low_of(width: Width) -> u32
    ensures { result ≡ spec.low_of width }
{
    match width {
        Width::Byte => 128,
        Width::Short => 32768,
        Width::Long => 2147483648,
    }
}

fn high_of(width: Width) -> u32
    ensures { result ≡ spec.high_of width }
{
    match width {
        Width::Byte => 255,
        Width::Short => 65535,
        Width::Long => 4294967295,
    }
}

fn first_here(places: Places, definition: Option<Definition>) -> bool
    ensures { result ≡ spec.first_here places definition }
{
    match definition {
        None => true,
        Some(definition) => definition.number == places.number,
    }
}

// The fault where another statement before it defines the name.
fn twice(table: &Table, places: Places, name: &[u8]) -> Option<u16>
    ensures { result ≡ spec.twice table.now places name.now }
{
    if first_here(places, table.names.get(name)) {
        None
    } else {
        Some(LINE_TWICE)
    }
}

fn in_byte(number: Plain) -> bool
    ensures { result ≡ spec.in_byte number }
{
    in_range(0, 255, u128::from(number.more), u128::from(number.less))
}

fn is_accepted(number: Plain) -> bool
    ensures { result ≡ spec.is_accepted number }
{
    let kind = number.more.saturating_sub(number.less);
    in_byte(number) && (32 <= kind || kind <= 9)
}

fn has_zero(bytes: &[u8]) -> bool
    ensures { result ≡ list_any (λ b. b == 0) bytes.now }
{
    bytes.iter().any(|b| *b == 0)
}

fn has_no_zero(bytes: &[u8]) -> bool
    ensures { result ≡ spec.has_no_zero bytes.now }
{
    !has_zero(bytes)
}

fn stab_fits(stab: &Stab) -> bool
    ensures { result ≡ spec.stab_fits stab.now }
{
    let desc = stab.desc.plain();
    is_accepted(stab.kind.plain())
        && in_byte(stab.other.plain())
        && in_range(32768, 65535, u128::from(desc.more), u128::from(desc.less))
        && has_no_zero(stab.name.bytes())
}

fn ranged(fits: bool, fault: Option<u16>) -> Option<u16>
    ensures { result ≡ spec.ranged fits fault }
{
    if fits { fault } else { Some(LINE_RANGE) }
}

fn rel_fits(rel: Rel) -> bool
    ensures { result ≡ spec.rel_fits rel }
{
    rel.address <= GREATEST_ADDRESS
        && rel.symbol < SYMBOL_LIMIT
        && rel.flags < 16
        && rel.flags / 2 % 4 < 3
        && (8 <= rel.flags
            || rel.symbol == u64::from(ABSOLUTE_SEGMENT)
            || rel.symbol == u64::from(TEXT_SEGMENT)
            || rel.symbol == u64::from(DATA_SEGMENT)
            || rel.symbol == u64::from(BSS_SEGMENT))
}

fn stab_fault(table: &Table, places: Places, stab: &Stab) -> Option<u16>
    requires table { TableFits table.now }
    requires room { Room places 1 }
    requires sum { SumFits stab.now.value }
    ensures { result ≡ spec.fault_of table.now places (What.Stab stab.now) }
{
    let value = sum_fault(
        table,
        places,
        Use::Value,
        2147483648,
        4294967295,
        &stab.value,
    );
    ranged(stab_fits(stab), value)
}

fn fault_of(table: &Table, places: Places, what: &What) -> Option<u16>
    requires table { TableFits table.now }
    requires room { Room places 1 }
    requires what { StatementFits what.now }
    ensures { result ≡ spec.fault_of table.now places what.now }
{
    match what {
        What::Label(name) => twice(table, places, name.bytes()),
        What::Field(width, sum) => {
            let low = low_of(*width);
            let high = high_of(*width);
            sum_fault(table, places, Use::Field, low, high, sum)
        }
        What::Space(size) => ranged(*size <= SPACE_LIMIT, None),
        What::Comm(name, size) => ranged(
            1 <= *size && *size <= GREATEST_ADDRESS,
            twice(table, places, name.bytes()),
        ),
        What::Lcomm(name, size) => ranged(
            1 <= *size && *size <= GREATEST_ADDRESS,
            twice(table, places, name.bytes()),
        ),
        What::Stab(stab) => stab_fault(table, places, stab),
        What::Align(power) => ranged(*power <= GREATEST_POWER, None),
        What::Entry(word) => ranged(*word <= GREATEST_ADDRESS, None),
        What::Machine(word) => ranged(*word <= 65535 && *word != u64::from(TWO_ORDERS), None),
        What::Bsize(size) => ranged(*size <= GREATEST_ADDRESS, None),
        What::Rel(rel) => ranged(rel_fits(*rel), None),
        _ => None,
    }
}

fn at_line(line: u64, number: Option<u16>) -> Option<Fault>
    ensures { result ≡ spec.at_line line number }
{
    match number {
        None => None,
        Some(number) => Some(Fault::at(number, line)),
    }
}

fn is_later(one: Fault, other: Fault) -> bool
    ensures { result ≡ spec.is_later one other }
{
    other.place < one.place || (other.place == one.place && other.number < one.number)
}

fn earlier(one: Option<Fault>, other: Option<Fault>) -> Option<Fault>
    ensures { result ≡ spec.earlier one other }
{
    match one {
        None => other,
        Some(f) => match other {
            None => Some(f),
            Some(g) => if is_later(f, g) { Some(g) } else { Some(f) },
        },
    }
}

/// The first fault of statements, by line and number.
pub(crate) fn first_fault(table: &Table, statements: &[Statement]) -> Option<Fault>
    requires table { TableFits table.now }
    requires statements { AllFit statements.now }
    ensures { result ≡ spec.faults table.now layout.start statements.now }
{
    let mut first = None;
    let mut places = start();
    for statement in statements {
        let number = fault_of(table, places, &statement.what);
        first = earlier(first, at_line(statement.line, number));
        places = after(places, statement);
    }
    first
}
