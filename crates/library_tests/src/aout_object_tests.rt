ghost use Rattle.std.specs.Prelude.{◌≡◌, [], All, IfOk, OnOk};
ghost use Rattle.strtab.specs.StringTable.{HasNoZero};
ghost use Rattle.aout_object.specs.Making.{HasWholeName};

use crate::changes::changed;
use crate::holds::all_hold;
use crate::nlist_codec_tests::put_each_entry;
use crate::reloc_tests::put_reloc;
use crate::strtab_tests::zero_in;
use aout_object::{Object, Parts, decode, encode};
use nlist_codec::Named;
use reloc::Reloc;
use st_base::{Fault, List, Memory, Order, Refused, Text};
use std::alloc::Global;
use test_tables::{Answer, Calls, Given, Odd, bytes_of};

// A file that has all parts, its numbers with the least significant byte first: the header; text at 32, data at 36; a word at 0
// that moves with text, at 40, and a word at 8, entry 3, pcrel, at 48; an N_SO at 56, and a definition in text at 68; the string
// table at 80.
const LITTLE: &[u8] = b"
0701_6400
04000000
04000000
08000000
18000000
00100000
08000000
08000000
01020304
05060708
00000000_040000_04
08000000_030000_0d
04000000_64_00_0000_00100000
08000000_05_00_0700_02100000
0b000000
'a.c'00
'_f'00
";

// The same file, its numbers with the most significant byte first.
const BIG: &[u8] = b"
0064_0107
00000004
00000004
00000008
00000018
00001000
00000008
00000008
01020304
05060708
00000000_000004_40
00000008_000003_d0
00000004_64_00_0000_00001000
00000008_05_00_0007_00001002
0000000b
'a.c'00
'_f'00
";

/// The file that has all parts in an order, with changes.
fn file_in(order: Order, changes: &[u8], out: &mut Answer) -> Text {
    match order {
        Order::Little => changed(order, changes, LITTLE, out),
        Order::Big => changed(order, changes, BIG, out),
    }
}

// ---- what decoding answers

/// `same` where an object is encoded again as its file stood.
fn put_again(object: &Object, file: &[u8], out: &mut Answer) {
    match encode(out.alloc, object) {
        Ok(again) => {
            if again.bytes() == file {
                out.put(b"same");
            } else {
                out.put(b"other");
            }
        }
        Err(_) => out.lose(),
    }
}

fn put_decoded(file: &[u8], out: &mut Answer) {
    match decode(out.alloc, file) {
        Err(refused) => out.put_refused(&refused),
        Ok(object) => put_again(&object, file, out),
    }
}

fn decoded(order: Order, given: &Given, alloc: Global) -> Answer {
    let mut out = Answer::new(alloc);
    let file = file_in(order, given.rest, &mut out);
    put_decoded(file.bytes(), &mut out);
    out
}

/// The answer for both orders, or two that differ.
fn decode_both(given: &Given, out: &mut Answer) {
    let little = decoded(Order::Little, given, out.alloc);
    let big = decoded(Order::Big, given, out.alloc);
    out.take(&little);
    if little.text.bytes() != big.text.bytes() {
        out.put(b"or");
        out.take(&big);
    }
}

/// The file with a byte more.
fn decode_longer(given: &Given, out: &mut Answer) {
    let mut file = file_in(given.order, b"", out);
    let written = file.push(0);
    out.wrote(written);
    put_decoded(file.bytes(), out);
}

fn is_truncated(alloc: Global, front: &[u8]) -> bool {
    let fault = Fault::at(5, front.len() as u64);
    match decode(alloc, front) {
        Err(refused) => refused == Refused::At(fault),
        Ok(_) => false,
    }
}

/// How many fronts of a file are told to be truncated at their ends.
fn put_fronts(file: &[u8], out: &mut Answer) {
    let mut count = 0u64;
    for cut in 0..file.len() {
        if is_truncated(out.alloc, &file[..cut]) {
            count = count.wrapping_add(1);
        }
    }
    out.put_number(count);
}

// ---- what an object gives

/// The machine word, the size of bss, the entry word, the end of text, and the bytes of text and of data.
fn put_parts(object: &Object, out: &mut Answer) {
    let parts = object.parts();
    out.put_word16(parts.machine);
    out.put_words32(&[parts.bss, parts.entry, object.text_end()]);
    out.put_bytes(parts.text.bytes());
    out.put_bytes(parts.data_part.bytes());
}

fn put_each_reloc(relocs: &[Reloc], out: &mut Answer) {
    for reloc in relocs {
        put_reloc(reloc, out);
    }
}

/// The relocations of text, `and`, and those of data.
fn put_relocs(parts: &Parts, out: &mut Answer) {
    put_each_reloc(parts.text_relocs.items(), out);
    out.put(b"and");
    put_each_reloc(parts.data_relocs.items(), out);
}

/// The entries, `in`, and the string table.
fn put_entries(object: &Object, out: &mut Answer) {
    put_each_entry(object.entries().items(), out);
    out.put(b"in");
    out.put_bytes(object.strings().bytes());
}

fn put_each_named(named: &[Named], out: &mut Answer) {
    for entry in named {
        out.put_byte(entry.kind);
        out.put_byte(entry.other);
        out.put_word16(entry.desc);
        out.put_word32(entry.value);
        out.put_bytes(entry.name.bytes());
    }
}

fn put_names(object: &Object, out: &mut Answer) {
    match object.named(out.alloc) {
        Ok(named) => put_each_named(named.items(), out),
        Err(_) => out.lose(),
    }
}

fn put_part(call: &str, object: &Object, out: &mut Answer) {
    match call {
        "parts" => put_parts(object, out),
        "relocs" => put_relocs(object.parts(), out),
        "entries" => put_entries(object, out),
        _ => put_names(object, out),
    }
}

/// What the object of the file that has all parts gives.
fn put_part_of(call: &str, file: &[u8], out: &mut Answer) {
    match decode(out.alloc, file) {
        Ok(object) => put_part(call, &object, out),
        Err(_) => out.refuse(),
    }
}

/// A call with the file that has all parts, with changes.
fn about_file(call: &str, given: &Given, out: &mut Answer) {
    let file = file_in(given.order, given.rest, out);
    match call {
        "decode_fronts" => put_fronts(file.bytes(), out),
        _ => put_part_of(call, file.bytes(), out),
    }
}

// ---- objects that are made

/// Parts without relocations and without data.
fn parts_with(alloc: Global, order: Order, entry: u32, text: Text) -> Parts
    ensures machine { result.machine ≡ 0x64 }
    ensures text_relocs { result.text_relocs ≡ [] }
    ensures data_relocs { result.data_relocs ≡ [] }
{
    Parts {
        order,
        machine: 0x64,
        bss: 0,
        entry,
        text,
        data_part: Text::new(alloc),
        text_relocs: List::new(alloc),
        data_relocs: List::new(alloc),
    }
}

/// Adds an entry.
fn push_named(alloc: Global, named: &mut List<Named>, kind: u8, name: &[u8]) -> Result<(), Memory>
    requires names { All HasWholeName named.old }
    requires whole { HasNoZero name.now }
    ensures { OnOk result (All HasWholeName named.new) }
{
    let name = Text::of(alloc, name)?;
    named.push(Named {
        kind,
        other: 0,
        desc: 0,
        value: 9,
        name,
    })
}

/// Adds an entry whose kind is the first byte, and whose name the other ones; no zero byte may be among them.
fn push_spelled(alloc: Global, named: &mut List<Named>, entry: &[u8]) -> Result<(), Odd>
    requires names { All HasWholeName named.old }
    ensures { OnOk result (All HasWholeName named.new) }
{
    match entry {
        [] => Err(Odd::Row),
        [kind, name @ ..] => {
            if zero_in(name).is_some() {
                return Err(Odd::Row);
            }
            push_named(alloc, named, *kind, name)?;
            Ok(())
        }
    }
}

/// The entries that are spelled so, if any.
fn named_in(alloc: Global, row: &[u8]) -> Result<List<Named>, Odd>
    ensures { IfOk result (λ named. All HasWholeName named) }
{
    let mut named = List::new(alloc);
    if row.is_empty() {
        return Ok(named);
    }
    for spelled in row.split(|b| *b == b' ') {
        let entry = bytes_of(alloc, spelled)?;
        push_spelled(alloc, &mut named, entry.bytes())?;
    }
    Ok(named)
}

fn put_file_of(object: &Object, out: &mut Answer) {
    match encode(out.alloc, object) {
        Ok(file) => out.put_bytes(file.bytes()),
        Err(_) => out.lose(),
    }
}

/// The file of the object that is made.
fn put_made(parts: Parts, named: &List<Named>, out: &mut Answer)
    requires machine { parts.machine ≡ 0x64 }
    requires text_relocs { parts.text_relocs ≡ [] }
    requires data_relocs { parts.data_relocs ≡ [] }
    requires names { All HasWholeName named.now }
{
    match Object::make(out.alloc, parts, named) {
        Ok(object) => put_file_of(&object, out),
        Err(refused) => out.put_refused(&refused),
    }
}

/// An order, an entry word, text, and entries with their names.
fn make(given: &Given, text: Text, out: &mut Answer) {
    match named_in(out.alloc, given.rest) {
        Ok(named) => {
            let parts = parts_with(out.alloc, given.order, given.number32(0), text);
            put_made(parts, &named, out);
        }
        Err(odd) => out.fail(odd),
    }
}

/// So many zero bytes.
fn zeros(alloc: Global, count: usize) -> Result<Text, Memory> {
    let zeros = vec![in alloc; 0_u8; count]?;
    Text::of(alloc, &zeros)
}

/// Whether an object without entries is made, of an entry word and text.
fn make_long(given: &Given, text: Text, out: &mut Answer) {
    let parts = parts_with(out.alloc, Order::Big, given.number32(0), text);
    match Object::make(out.alloc, parts, &List::new(out.alloc)) {
        Ok(_) => out.put(b"made"),
        Err(refused) => out.put_refused(&refused),
    }
}

/// A call that makes an object of text: these bytes, or so many zero bytes.
fn about_text(call: &str, given: &Given, out: &mut Answer) {
    let text = match call {
        "make" => Text::of(out.alloc, given.bytes(0)),
        _ => zeros(out.alloc, given.number32(1) as usize),
    };
    match (text, call) {
        (Ok(text), "make") => make(given, text, out),
        (Ok(text), _) => make_long(given, text, out),
        (Err(_), _) => out.lose(),
    }
}

#[derive(Drop)]
struct AoutObject;

impl Calls for AoutObject {
    fn answer(&mut self, call: &str, given: &Given, out: &mut Answer) {
        match call {
            "decode" => decode_both(given, out),
            "decode_bytes" => put_decoded(given.bytes(0), out),
            "decode_longer" => decode_longer(given, out),
            "make" => about_text(call, given, out),
            "make_long" => about_text(call, given, out),
            _ => about_file(call, given, out),
        }
    }
}

const CALLS: &[u8] = b"
decode : rest
decode_bytes : bytes
decode_longer : order
decode_fronts : order
parts : order rest
relocs : order rest
entries : order rest
named : order rest
make : order number32 bytes rest
make_long : number32 number32
";

const ROWS: &[u8] = b"
# a file with all parts, in both orders
decode -> same
parts little -> 0064 00000008 00001000 00001004 01020304 05060708
parts big -> 0064 00000008 00001000 00001004 01020304 05060708
relocs little -> 0 4 2 and 8 3 2 pcrel external
relocs big -> 0 4 2 and 8 3 2 pcrel external
entries little -> 00000004 64 00 0000 00001000 00000008 05 00 0007 00001002 in 0b000000'a.c'00'_f'00
entries big -> 00000004 64 00 0000 00001000 00000008 05 00 0007 00001002 in 0000000b'a.c'00'_f'00
named little -> 64 00 0000 00001000 'a.c' 05 00 0007 00001002 '_f'
named big -> 64 00 0000 00001000 'a.c' 05 00 0007 00001002 '_f'
# an entry without a name
named big 56:0 -> 64 00 0000 00001000 . 05 00 0007 00001002 '_f'

# cut off before each of its 91 bytes
decode_fronts little -> 91
decode_fronts big -> 91
# a byte more
decode_longer little -> fault 6 91
decode_longer big -> fault 6 91

# a bare header
decode_bytes 07016400_00000000_00000000_00000000_00000000_00000000_00000000_00000000 -> same
# behind it a byte begins a string table
decode_bytes 07016400_00000000_00000000_00000000_00000000_00000000_00000000_00000000_04 -> fault 5 33
# a string table without names
decode_bytes 07016400_00000000_00000000_00000000_00000000_00000000_00000000_00000000_04000000 -> same
# no string table behind an entry
decode_bytes 07010000_00000000_00000000_00000000_0c000000_00000000_00000000_00000000_04000000_64_00_0000_00000000 -> fault 5 44
# a name without an end, and with one
decode_bytes 07010000_00000000_00000000_00000000_0c000000_00000000_00000000_00000000_04000000_64_00_0000_00000000_07000000'a.c' -> fault 13 0
decode_bytes 07010000_00000000_00000000_00000000_0c000000_00000000_00000000_00000000_04000000_64_00_0000_00000000_08000000'a.c'00 -> same

# the magic less one, and one more, and bytes of entries
decode 0:0x00640106 16:25 -> fault 1 0
decode 0:0x00640108 16:25 -> fault 1 0
# the magic in both orders, and bytes of entries
decode 0:0x07010107 16:25 -> fault 2 0
# another machine word
decode 0:0x00650107 -> same

# a segment of a byte more or less moves the string table: its word is then past the file
decode 4:5 -> fault 5 91
decode 4:3 -> fault 5 91
decode 8:5 -> fault 5 91
decode 8:3 -> fault 5 91
# bss and the entry word are carried
decode 12:9 -> same
decode 12:7 -> same
decode 20:0x1001 -> same
decode 20:0x0fff -> same
# the end of bss, 16 bytes behind the entry word, at the highest address, and past it
decode 20:0xffffffef -> same
decode 20:0xfffffff0 -> fault 7 20

# bytes of entries, and of relocations, that are no whole ones
decode 16:25 -> fault 3 16
decode 16:23 -> fault 3 16
decode 24:9 -> fault 4 24
decode 24:7 -> fault 4 24
decode 28:9 -> fault 4 28
decode 28:7 -> fault 4 28
# an entry more: the table at 92
decode 16:36 -> fault 5 91
# an entry less: the word of the table at 68 is the offset of the second name, 8
decode 16:12 -> fault 6 76
# a relocation more: three bytes of a word at 88
decode 24:16 -> fault 5 91
# a relocation less: a kind in the length of the table, at 72
decode 28:0 -> fault 5 91

# each size before the next one
decode 16:25 24:9 -> fault 3 16
decode 24:9 28:9 -> fault 4 24
decode 28:9 20:0xffffffff -> fault 4 28
# the sizes before the parts
decode 20:0xffffffff 16:240 -> fault 7 20
# the parts before the length of the table
decode 16:240 80:3 -> fault 5 91
# a length that leaves out its word, and a relocation of eight bytes
decode 80:3 47=0x06/0x60 -> fault 10 80
# a length past the file, and such a relocation
decode 80:12 47=0x06/0x60 -> fault 5 91
# a byte behind the table, and such a relocation
decode 80:10 47=0x06/0x60 -> fault 6 90

# eight bytes in text, and in data
decode 47=0x06/0x60 55=0x06/0x60 -> fault 20 0
# eight bytes and baserel of one relocation
decode 55=0x1f/0xf8 -> fault 20 1
# baserel and symbol 3 that is not external
decode 44=3/0 46=0/3 47=0x14/0x48 -> fault 21 0
# baserel of data, and an entry of kind 10
decode 55=0x1d/0xd8 60=10/10 -> fault 21 1
# symbol 3 that is not external, and such an entry
decode 44=3/0 46=0/3 60=10/10 -> fault 22 0

# the kind and the name of one entry
decode 56:3 60=10/10 -> fault 30 0
# the name of an entry, and the kind of the next
decode 56:3 72=0x1f/0x1f -> fault 11 0
# the kind of the second entry
decode 72=0x1f/0x1f -> fault 30 1
# the least stab, and the greatest other kind
decode 60=0x20/0x20 72=9/9 -> same

# the first offset behind that of no name, and the last one in the length
decode 68:1 -> fault 11 1
decode 68:3 -> fault 11 1
# no name
decode 68:0 -> same
# a name at the end of the table, and an empty one before it
decode 68:11 -> fault 12 1
decode 68:10 -> same
# a name without an end
decode 68:8 90=0x78/0x78 -> fault 13 1
# a name that ends in the last zero byte, at 7
decode 68:7 90=0x78/0x78 -> same

# three entries with two names
make big 0x10 0102 64'a.c' 44 24'a.c' -> 00640107_00000002_00000000_00000000_00000024_00000010_00000000_00000000_0102_00000004_64_00_0000_00000009_00000000_44_00_0000_00000009_00000004_24_00_0000_00000009_00000008'a.c'00
make little 0 . 64'a.c' -> 07016400_00000000_00000000_00000000_0c000000_00000000_00000000_00000000_04000000_64_00_0000_09000000_08000000'a.c'00
# a string table without names
make big 0 0102 -> 00640107_00000002_00000000_00000000_00000000_00000000_00000000_00000000_0102_00000004
# the end of bss at the highest address, and past it
make big 0xfffffffd 0102 -> 00640107_00000002_00000000_00000000_00000000_fffffffd_00000000_00000000_0102_00000004
make big 0xfffffffe 0102 64'a.c' -> fault 94 4294967295
# a kind that is not accepted is told before that
make big 0xfffffffe 0102 64'a.c' 0a'x' -> fault 30 1
make big 0 . 1f'x' -> fault 30 0
";

#[test]
fn aout_object_answers(rt: HostRuntime) {
    all_hold(&rt, rt.alloc(), &mut AoutObject, CALLS, ROWS);
}

const LONG: &[u8] = b"
# a file of 134217728 bytes, 32 of them the header and 4 a string table, and of one more
make_long 0 134217692 -> made
make_long 0 134217693 -> fault 94 134217728
# the end of bss past the addresses is told before that
make_long 0xffffffff 134217693 -> fault 94 4294967295
";

#[test]
fn a_file_has_at_most_134_217_728_bytes(rt: HostRuntime) {
    all_hold(&rt, rt.alloc(), &mut AoutObject, CALLS, LONG);
}
