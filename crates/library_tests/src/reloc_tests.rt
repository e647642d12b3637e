use crate::holds::all_hold;
use reloc::{Reloc, apply, read_reloc, write_reloc};
use st_base::{Order, Text};
use test_tables::{Answer, Calls, Given, shown};

/// Writes the address, the symbol, the bytes of the field, and the flags that are set.
pub fn put_reloc(reloc: &Reloc, out: &mut Answer) {
    out.put_numbers(&[reloc.address, reloc.symbol, u32::from(reloc.length)]);
    if reloc.pcrel {
        out.put(b"pcrel");
    }
    if reloc.external {
        out.put(b"external");
    }
}

fn read(given: &Given, out: &mut Answer) {
    let Some((record, _)) = given.bytes(0).split_first_chunk::<8>() else {
        return out.refuse();
    };
    let read = match given.order {
        Order::Little => read_reloc::<false>(record),
        Order::Big => read_reloc::<true>(record),
    };
    match read {
        Ok(reloc) => put_reloc(&reloc, out),
        Err(fault) => out.put_fault(&fault),
    }
}

/// The relocation with these numbers, and the flags that the row names.
fn reloc_of(address: u32, symbol: u32, length: u8, given: &Given, out: &mut Answer) -> Reloc {
    let (pcrel, external) = match shown(given.rest) {
        "" => (false, false),
        "pcrel" => (true, false),
        "external" => (false, true),
        "pcrel external" => (true, true),
        _ => {
            out.refuse();
            (false, false)
        }
    };
    Reloc {
        address,
        symbol,
        pcrel,
        length,
        external,
    }
}

fn write(given: &Given, out: &mut Answer) {
    let reloc = reloc_of(
        given.number32(0),
        given.number32(1),
        given.number8(2),
        given,
        out,
    );
    let symbol = reloc.symbol;
    let is_segment = symbol == 2 || symbol == 4 || symbol == 6 || symbol == 8;
    if 2 < reloc.length || 0xff_ffff < symbol || !(reloc.external || is_segment) {
        return out.refuse();
    }
    match given.order {
        Order::Little => out.put_bytes(&write_reloc::<false>(&reloc)),
        Order::Big => out.put_bytes(&write_reloc::<true>(&reloc)),
    }
}

/// Adds to a field of a segment, whose relocation has a length of at most 2.
fn add_to(segment: &mut Text, reloc: &Reloc, amount: u32, given: &Given, out: &mut Answer) {
    if 2 < reloc.length {
        return out.refuse();
    }
    out.put_checked(match given.order {
        Order::Little => apply::<false>(segment.bytes_mut(), reloc, amount),
        Order::Big => apply::<true>(segment.bytes_mut(), reloc, amount),
    });
    out.put_bytes(segment.bytes());
}

/// An order, a segment, an amount, and a relocation: the answer, and the segment afterwards.
fn add(given: &Given, out: &mut Answer) {
    let reloc = reloc_of(
        given.number32(1),
        given.number32(2),
        given.number8(3),
        given,
        out,
    );
    match Text::of(out.alloc, given.bytes(0)) {
        Ok(mut segment) => add_to(&mut segment, &reloc, given.number32(0), given, out),
        Err(_) => out.lose(),
    }
}

#[derive(Drop)]
struct Relocs;

impl Calls for Relocs {
    fn answer(&mut self, call: &str, given: &Given, out: &mut Answer) {
        match call {
            "read_reloc" => read(given, out),
            "write_reloc" => write(given, out),
            _ => add(given, out),
        }
    }
}

const CALLS: &[u8] = b"
read_reloc : order bytes
write_reloc : order number32 number32 number8 rest
apply : order bytes number32 number32 number32 number8 rest
";

const ROWS: &[u8] = b"
# address, symbol, length, flags
read_reloc little 08000000_030000_0d -> 8 3 2 pcrel external
read_reloc big 00000008_000003_d0 -> 8 3 2 pcrel external
read_reloc little 00000000_040000_04 -> 0 4 2
read_reloc big 00000000_000004_40 -> 0 4 2
read_reloc little 01020304_050607_0a -> 67305985 460293 1 external
read_reloc big 01020304_050607_30 -> 16909060 329223 1 external
read_reloc little 00000000_080000_01 -> 0 8 0 pcrel
read_reloc big 00000000_000002_80 -> 0 2 0 pcrel
write_reloc little 8 3 2 pcrel external -> 08000000_030000_0d
write_reloc big 8 3 2 pcrel external -> 00000008_000003_d0
write_reloc little 0x04030201 0x070605 1 external -> 01020304_050607_0a
write_reloc big 0x01020304 0x050607 1 external -> 01020304_050607_30
write_reloc little 0 8 0 pcrel -> 00000000_080000_01
write_reloc big 0 6 2 -> 00000000_000006_40

# a length of eight bytes, baserel, and symbol 3 that is not external
read_reloc little 08000000_030000_16 -> fault 20 0
read_reloc big 00000008_000003_68 -> fault 20 0
# baserel, and symbol 3 that is not external
read_reloc little 08000000_030000_14 -> fault 21 0
read_reloc big 00000008_000003_48 -> fault 21 0
# jmptable, relative and copy
read_reloc little 08000000_040000_24 -> fault 21 0
read_reloc big 00000008_000004_44 -> fault 21 0
read_reloc little 08000000_040000_44 -> fault 21 0
read_reloc big 00000008_000004_42 -> fault 21 0
read_reloc little 08000000_040000_84 -> fault 21 0
read_reloc big 00000008_000004_41 -> fault 21 0
# symbol 3 that is not external
read_reloc little 08000000_030000_04 -> fault 22 0
read_reloc big 00000008_000003_40 -> fault 22 0
# the numbers next to those of segments, and one with a low byte of text
read_reloc big 00000008_000000_40 -> fault 22 0
read_reloc big 00000008_00000a_40 -> fault 22 0
read_reloc big 00000008_000104_40 -> fault 22 0

# -128 and 383 are 255
apply big 11802233 0x17f 1 4 0 -> ok 11ff2233
# -2 and 0x1002
apply big 11fffe33 0x1002 1 4 1 -> ok 11100033
apply little 11feff33 0x1002 1 4 1 -> ok 11001033
# a sum past 2^32
apply big 11fffffffe33 0x12345678 1 4 2 -> ok 111234567633
apply little 11feffffff33 0x12345678 1 4 2 -> ok 117656341233
# a byte holds -128 to 255
apply little 00 255 0 4 0 -> ok ff
apply little 00 0xffffff80 0 4 0 -> ok 80
apply little 00 256 0 4 0 -> fault 25 0 00
apply little 00 0xffffff7f 0 4 0 -> fault 25 0 00
# two bytes hold -32768 to 65535
apply little 0000 65535 0 4 1 -> ok ffff
apply big 0000 0xffff8000 0 4 1 -> ok 8000
apply little 0000 65536 0 4 1 -> fault 25 0 0000
apply big 0000 0xffff7fff 0 4 1 -> fault 25 0 0000
# four bytes hold every sum
apply big 00000000 0x80000000 0 4 2 -> ok 80000000
apply big 80000000 0x80000000 0 4 2 -> ok 00000000
# the place of the fault is the address
apply little ffffff 0x10001 1 4 1 -> fault 25 1 ffffff
# a field past the end is told before its sum
apply little ffffff 0x10000 2 4 1 -> fault 23 2 ffffff
apply big ffffff 1 0xffffffff 4 2 -> fault 23 4294967295 ffffff
apply big 000000 1 0 4 2 -> fault 23 0 000000
apply big . 1 0 4 0 -> fault 23 0 .
# the last field
apply big 000000 1 1 4 1 -> ok 000001
";

#[test]
fn reloc_answers(rt: HostRuntime) {
    all_hold(&rt, rt.alloc(), &mut Relocs, CALLS, ROWS);
}
