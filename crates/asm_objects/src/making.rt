ghost use Rattle.std.specs.Prelude.{◌≡◌, ◌+◌, ◌++◌, ◌∷◌, ◌^◌, ◌<◌, ◌≤◌, [], IfOk, IfSome, OnOk, map, max, replicate, length};
ghost use Rattle.st_base.specs.ByteOrder.{is_big};
ghost use Rattle.st_base.specs.Faults.{checked};
ghost use Rattle.asm_statements.specs.declared.statement.Part.TheVariants as part;
ghost use Rattle.asm_objects.specs.SourceMaking.{entries_by, parts_by};
ghost use Rattle.asm_objects.specs.Emitting.{CommonBelow, EndsInMemory, Left, Stands, TableFits, Within, limit_checks};
ghost use Rattle.asm_statements.specs.Fits.{StatementFits, SumFits};
ghost use Rattle.asm_objects.specs.Layout as layout;
ghost use Rattle.asm_objects.specs.Layout.{Room};
ghost use Rattle.asm_objects.specs.Meaning as spec;

use crate::table::{
    Definition, Home, Places, Table, after, home_of, is_local, offset_in, padding, start,
};
use crate::value::{address, here, kind_of, minus, plus, word};
use crate::words::Words;
use aout_object::Parts;
use asm_statements::{Name, Part, Plain, Rel, Stab, Statements, What, Width};
use nlist_codec::{BSS_SEGMENT, DATA_SEGMENT, Named, TEXT_SEGMENT, UNDEFINED_EXTERNAL};
use reloc::Reloc;
use st_base::{
    ENTRY_SIZE, FILE_LIMIT, Fault, GREATEST_ADDRESS, Layout, List, Memory, Order, TOO_LARGE, Text,
    aligned,
};
use std::alloc::Global;

/// What statements make: the parts of an object, and its entries with their names.
#[derive(Drop)]
pub(crate) struct Made {
    pub parts: Parts,
    pub named: List<Named>,
}

// ---- limits

// The size of bss: that of `.bsize`, or where `.lcomm` ends.
fn bss_size(bsize: u64, end: u128) -> u128
    requires { end < 2 ^ 124 }
    ensures value { result ≡ max bsize end }
    ensures small { result < 2 ^ 124 }
{
    u128::from(bsize).max(end)
}

/// Whether the end of bss is an address, and segments and entries alone are within the limit of a file.
pub(crate) fn check_limits(table: &Table, undefined: usize) -> Result<(), Fault>
    requires { TableFits table.now }
    ensures { result ≡ checked (limit_checks table.now undefined) tt }
{
    let entry = u128::from(table.entry);
    let segments = table.end.text + table.end.datum;
    let bss = bss_size(table.bsize, table.end.bss);
    if entry + segments + bss > u128::from(GREATEST_ADDRESS) {
        return Err(Fault::at(TOO_LARGE, GREATEST_ADDRESS));
    }
    let entries = u128::from(table.end.entries) + undefined as u128;
    if segments + entries * ENTRY_SIZE as u128 > u128::from(FILE_LIMIT) {
        return Err(Fault::at(TOO_LARGE, FILE_LIMIT));
    }
    Ok(())
}

// ---- bytes

fn put_number<const BIG: bool>(out: &mut Text, width: Width, number: u32) -> Result<(), Memory>
    ensures { OnOk result (out.new ≡ out.old ++ spec.field_bytes BIG width number) }
{
    match width {
        Width::Byte => {
            let mut field = [0; 1];
            Layout::<BIG, 1>::put_u8(&mut field, 0, (number % 256) as u8);
            out.extend(&field)
        }
        Width::Short => {
            let mut field = [0; 2];
            Layout::<BIG, 2>::put_u16(&mut field, 0, (number % 65536) as u16);
            out.extend(&field)
        }
        Width::Long => {
            let mut field = [0; 4];
            Layout::<BIG, 4>::put_u32(&mut field, 0, number);
            out.extend(&field)
        }
    }
}

fn put_field(out: &mut Text, order: Order, width: Width, number: u32) -> Result<(), Memory>
    ensures { OnOk result (out.new ≡ out.old ++ spec.field_bytes (is_big order) width number) }
{
    match order {
        Order::Little => put_number::<false>(out, width, number),
        Order::Big => put_number::<true>(out, width, number),
    }
}

// Appends so many zero bytes, of which some lie ready.
fn put_zeros_of(out: &mut Text, zeros: &[u8], size: u64) -> Result<(), Memory>
    requires { zeros.now ≡ replicate 256 0 }
    ensures { OnOk result (out.new ≡ out.old ++ replicate size 0) }
{
    let mut left = size;
    while 256 <= left {
        out.extend(zeros)?;
        left -= 256;
    }
    out.extend(&zeros[..left as usize])?;
    Ok(())
}

fn put_zeros(out: &mut Text, size: u64) -> Result<(), Memory>
    ensures { OnOk result (out.new ≡ out.old ++ replicate size 0) }
{
    put_zeros_of(out, &[0; 256], size)
}

fn put_bytes(
    out: &mut Text,
    order: Order,
    table: &Table,
    places: Places,
    what: &What,
) -> Result<(), Memory>
    requires table { TableFits table.now }
    requires room { Room places 1 }
    requires what { StatementFits what.now }
    ensures { OnOk result (out.new ≡ out.old ++ spec.bytes_in (is_big order) table.now places what.now) }
{
    match what {
        What::Field(width, sum) => {
            let number = word(plus(table, places, sum), minus(table, places, sum));
            put_field(out, order, *width, number)
        }
        What::Space(size) => put_zeros(out, *size),
        What::Bytes(bytes) => out.extend(bytes.bytes()),
        What::Align(power) => put_zeros(out, padding(*power, offset_in(places)) as u64),
        _ => Ok(()),
    }
}

// ---- relocations

fn length_of(width: Width) -> u8
    ensures { result ≡ spec.length_of width }
{
    match width {
        Width::Byte => 0,
        Width::Short => 1,
        Width::Long => 2,
    }
}

fn reloc_at(places: Places, width: Width, symbol: u32, external: bool) -> Reloc
    requires { layout.offset_in places < 2 ^ 32 }
    ensures { result ≡ spec.reloc_at places width symbol external }
{
    Reloc {
        address: offset_in(places) as u32,
        symbol,
        pcrel: false,
        length: length_of(width),
        external,
    }
}

fn reloc_to(places: Places, width: Width, home: Home, offset: u128) -> Reloc
    requires address { layout.offset_in places < 2 ^ 32 }
    requires common { CommonBelow (2 ^ 24) home offset }
    ensures { result ≡ spec.reloc_to places width home offset }
{
    match home {
        Home::Text => reloc_at(places, width, u32::from(TEXT_SEGMENT), false),
        Home::Data => reloc_at(places, width, u32::from(DATA_SEGMENT), false),
        Home::Bss => reloc_at(places, width, u32::from(BSS_SEGMENT), false),
        Home::Common => reloc_at(places, width, offset as u32, true),
    }
}

fn place_in(undefined: &Words, name: &[u8]) -> usize
    ensures value { result ≡ spec.place_in undefined.now name.now }
    ensures small { result ≤ length undefined.now }
{
    match undefined.place(name) {
        Some(place) => place,
        None => 0,
    }
}

fn reloc_by(
    table: &Table,
    undefined: &Words,
    places: Places,
    width: Width,
    name: &[u8],
    definition: Option<Definition>,
) -> Reloc
    requires address { layout.offset_in places < 2 ^ 32 }
    requires within { Within table.now (length undefined.now) }
    requires common { IfSome definition (λ d. CommonBelow (2 ^ 24) d.home d.offset) }
    ensures { result ≡ spec.reloc_by table.now undefined.now places width name.now definition }
{
    match definition {
        Some(definition) => reloc_to(places, width, definition.home, definition.offset),
        None => {
            let symbol = u128::from(table.end.entries) + place_in(undefined, name) as u128;
            reloc_at(places, width, symbol as u32, true)
        }
    }
}

fn reloc_of(table: &Table, undefined: &Words, places: Places, width: Width, name: &Name) -> Reloc
    requires address { layout.offset_in places < 2 ^ 32 }
    requires within { Within table.now (length undefined.now) }
    ensures { result ≡ spec.reloc_of table.now undefined.now places width name.now }
{
    match name {
        Name::Here => reloc_by(table, undefined, places, width, &[], Some(here(places))),
        Name::Named(name) => {
            let definition = table.names.get(name.bytes());
            reloc_by(table, undefined, places, width, name.bytes(), definition)
        }
    }
}

fn put_relocs_of(
    out: &mut List<Reloc>,
    table: &Table,
    undefined: &Words,
    places: Places,
    width: Width,
    added: &[Name],
    taken: &[Name],
) -> Result<(), Memory>
    requires address { layout.offset_in places < 2 ^ 32 }
    requires within { Within table.now (length undefined.now) }
    ensures { OnOk result (out.new ≡ out.old ++ spec.relocs_of table.now undefined.now places width added.now taken.now) }
{
    match added {
        [] => Ok(()),
        [x] => match taken {
            [] => out.push(reloc_of(table, undefined, places, width, x)),
            [_, ..] => Ok(()),
        },
        [_, _, ..] => Ok(()),
    }
}

fn written(rel: Rel) -> Reloc
    requires address { rel.address < 2 ^ 32 }
    requires symbol { rel.symbol < 2 ^ 24 }
    ensures { result ≡ spec.written rel }
{
    Reloc {
        address: rel.address as u32,
        symbol: rel.symbol as u32,
        pcrel: rel.flags % 2 == 1,
        length: (rel.flags / 2 % 4) as u8,
        external: 8 <= rel.flags,
    }
}

fn reloc_part(places: Places, what: &What) -> Part
    ensures { result ≡ spec.reloc_part places what.now }
{
    match what {
        What::Rel(rel) => rel.part,
        _ => places.part,
    }
}

fn put_relocs(
    out: &mut List<Reloc>,
    table: &Table,
    undefined: &Words,
    places: Places,
    what: &What,
) -> Result<(), Memory>
    requires within { Within table.now (length undefined.now) }
    requires stands { Stands table.now places what.now }
    ensures { OnOk result (out.new ≡ out.old ++ spec.relocs_in table.now undefined.now places what.now) }
{
    match what {
        What::Field(width, sum) => put_relocs_of(
            out,
            table,
            undefined,
            places,
            *width,
            sum.added(),
            sum.taken(),
        ),
        What::Rel(rel) => out.push(written(*rel)),
        _ => Ok(()),
    }
}

// ---- entries

fn put_entry(out: &mut List<Named>, kind: u8, value: u32, name: Text) -> Result<(), Memory>
    ensures { OnOk result (out.new ≡ out.old ++ spec.entry_with kind value name ∷ []) }
{
    out.push(Named {
        kind,
        other: 0,
        desc: 0,
        value,
        name,
    })
}

fn put_unless_local(out: &mut List<Named>, kind: u8, value: u32, name: Text) -> Result<(), Memory>
    ensures { OnOk result (out.new ≡ out.old ++ spec.unless_local (layout.is_local name) (spec.entry_with kind value name)) }
{
    if is_local(name.bytes()) {
        Ok(())
    } else {
        put_entry(out, kind, value, name)
    }
}

// The bit N_EXT of a name.
fn ext(table: &Table, name: &Text) -> u8
    ensures value { result ≡ spec.ext table.now name.now }
    ensures small { result ≤ 1 }
{
    if table.globals.has(name.bytes()) {
        1
    } else {
        0
    }
}

fn byte_of(number: Plain) -> u8
    ensures { result ≡ spec.byte_of number }
{
    (word(u128::from(number.more), u128::from(number.less)) % 256) as u8
}

fn half_of(number: Plain) -> u16
    ensures { result ≡ spec.half_of number }
{
    (word(u128::from(number.more), u128::from(number.less)) % 65536) as u16
}

fn put_stab(out: &mut List<Named>, table: &Table, places: Places, stab: Stab) -> Result<(), Memory>
    requires table { TableFits table.now }
    requires room { Room places 1 }
    requires what { SumFits stab.value }
    ensures { OnOk result (out.new ≡ out.old ++ spec.stab_entry table.now places stab ∷ []) }
{
    let value = word(
        plus(table, places, &stab.value),
        minus(table, places, &stab.value),
    );
    out.push(Named {
        kind: byte_of(stab.kind.plain()),
        other: byte_of(stab.other.plain()),
        desc: half_of(stab.desc.plain()),
        value,
        name: stab.name,
    })
}

// Where `.lcomm` puts its name.
fn bss_at(places: Places) -> Definition
    requires { Room places 1 }
    ensures { result ≡ spec.bss_at places }
{
    Definition {
        home: Home::Bss,
        offset: aligned(places.bss),
        number: places.number,
    }
}

// The address of a definition as the value of its entry.
fn value_at(table: &Table, definition: Definition) -> u32
    requires table { TableFits table.now }
    requires offset { definition.offset < 2 ^ 124 }
    requires small { spec.address table.now definition < 2 ^ 32 }
    ensures { result ≡ spec.address table.now definition }
{
    address(table, definition) as u32
}

// The entries of a statement take its names.
fn put_entries(
    out: &mut List<Named>,
    table: &Table,
    places: Places,
    what: What,
) -> Result<(), Memory>
    requires table { TableFits table.now }
    requires room { Room places 1 }
    requires addresses { EndsInMemory table.now }
    requires stands { Stands table.now places what }
    ensures { OnOk result (out.new ≡ out.old ++ spec.entries_in table.now places what) }
{
    match what {
        What::Label(name) => {
            let kind = kind_of(home_of(places.part)) + ext(table, &name);
            let value = value_at(table, here(places));
            put_unless_local(out, kind, value, name)
        }
        What::Comm(name, size) => put_entry(out, UNDEFINED_EXTERNAL, size as u32, name),
        What::Lcomm(name, _) => {
            let kind = BSS_SEGMENT + ext(table, &name);
            let value = value_at(table, bss_at(places));
            put_unless_local(out, kind, value, name)
        }
        What::Stab(stab) => put_stab(out, table, places, stab),
        _ => Ok(()),
    }
}

fn put_undefined(alloc: Global, out: &mut List<Named>, undefined: &Words) -> Result<(), Memory>
    ensures { OnOk result (out.new ≡ out.old ++ map spec.undefined_entry undefined.now) }
{
    for at in 0..undefined.len() {
        let name = undefined.text_at(alloc, at)?;
        put_entry(out, UNDEFINED_EXTERNAL, 0, name)?;
    }
    Ok(())
}

// ---- both segments

fn put_in_part(
    text: &mut Text,
    datum: &mut Text,
    order: Order,
    table: &Table,
    places: Places,
    what: &What,
) -> Result<(), Memory>
    requires table { TableFits table.now }
    requires room { Room places 1 }
    requires what { StatementFits what.now }
    ensures text { OnOk result (text.new ≡ text.old ++ spec.if_in part.Text places.part (spec.bytes_in (is_big order) table.now places what.now)) }
    ensures datum { OnOk result (datum.new ≡ datum.old ++ spec.if_in part.Data places.part (spec.bytes_in (is_big order) table.now places what.now)) }
{
    match places.part {
        Part::Text => put_bytes(text, order, table, places, what),
        Part::Data => put_bytes(datum, order, table, places, what),
    }
}

fn put_relocs_in_part(
    text: &mut List<Reloc>,
    datum: &mut List<Reloc>,
    table: &Table,
    undefined: &Words,
    places: Places,
    what: &What,
) -> Result<(), Memory>
    requires within { Within table.now (length undefined.now) }
    requires stands { Stands table.now places what.now }
    ensures text { OnOk result (text.new ≡ text.old ++ spec.if_in part.Text (spec.reloc_part places what.now) (spec.relocs_in table.now undefined.now places what.now)) }
    ensures datum { OnOk result (datum.new ≡ datum.old ++ spec.if_in part.Data (spec.reloc_part places what.now) (spec.relocs_in table.now undefined.now places what.now)) }
{
    match reloc_part(places, what) {
        Part::Text => put_relocs(text, table, undefined, places, what),
        Part::Data => put_relocs(datum, table, undefined, places, what),
    }
}

/// The last pass: what statements without a fault make, where their numbers fit. It takes the statements, and drops each as it goes.
pub(crate) fn emit(
    alloc: Global,
    order: Order,
    table: &Table,
    undefined: &Words,
    statements: Statements,
) -> Result<Made, Memory>
    requires table { TableFits table.now }
    requires within { Within table.now (length undefined.now) }
    requires left { Left table.now layout.start statements }
    ensures parts { IfOk result (λ m. m.parts ≡ parts_by order table.now undefined.now statements) }
    ensures named { IfOk result (λ m. m.named ≡ entries_by table.now undefined.now statements) }
{
    let mut text = Text::new(alloc);
    let mut datum = Text::new(alloc);
    let mut text_relocs = List::new(alloc);
    let mut data_relocs = List::new(alloc);
    let mut named = List::new(alloc);
    let mut places = start();
    for statement in statements.into_vec() {
        let next = after(places, &statement);
        let what = statement.what;
        put_in_part(&mut text, &mut datum, order, table, places, &what)?;
        put_relocs_in_part(
            &mut text_relocs,
            &mut data_relocs,
            table,
            undefined,
            places,
            &what,
        )?;
        put_entries(&mut named, table, places, what)?;
        places = next;
    }
    put_undefined(alloc, &mut named, undefined)?;
    let entry = table.entry as u32;
    let machine = table.machine as u16;
    let bss = bss_size(table.bsize, table.end.bss) as u32;
    let parts = Parts {
        order,
        machine,
        bss,
        entry,
        text,
        data_part: datum,
        text_relocs,
        data_relocs,
    };
    Ok(Made { parts, named })
}
