use crate::changes::changed;
use crate::holds::all_hold;
use aout_layout::{Header, header_fits, read_header, write_header};
use st_base::{Order, Text};
use test_tables::{Answer, Calls, Given};

/// Sizes of text, data and bss of which each byte is another, 24 bytes of entries, text at 0x1000, 16 bytes of text relocations
/// and 8 of data relocations.
/// Sizes of text, data and bss of which each byte is another, 24 bytes of entries, text at 0x1000, 16 bytes of text relocations
/// and 8 of data relocations.
const LITTLE: &[u8] = b"
0701_6400
04030201
08070605
0c0b0a09
18000000
00100000
10000000
08000000
";

const BIG: &[u8] = b"
0064_0107
01020304
05060708
090a0b0c
00000018
00001000
00000010
00000008
";

/// Writes the order, and the fields in their order, each as its bytes with the most significant one first.
fn put_header(header: &Header, out: &mut Answer) {
    match header.order {
        Order::Little => out.put(b"little"),
        Order::Big => out.put(b"big"),
    }
    out.put_word16(header.machine);
    out.put_words32(&[
        header.text,
        header.data_part,
        header.bss,
        header.symbols,
        header.entry,
        header.text_relocs,
        header.data_relocs,
    ]);
}

/// An order, and changes of the bytes that have it.
fn read(given: &Given, out: &mut Answer) {
    let bytes: Text = match given.order {
        Order::Little => changed(Order::Little, given.rest, LITTLE, out),
        Order::Big => changed(Order::Big, given.rest, BIG, out),
    };
    match bytes.bytes().split_first_chunk::<32>() {
        Some((record, _)) => match read_header(record) {
            Ok(header) => put_header(&header, out),
            Err(fault) => out.put_fault(&fault),
        },
        None => out.refuse(),
    }
}

/// The fields of a header in their order.
fn write(given: &Given, out: &mut Answer) {
    let header = Header {
        order: given.order,
        machine: given.number16(0),
        text: given.number32(1),
        data_part: given.number32(2),
        bss: given.number32(3),
        symbols: given.number32(4),
        entry: given.number32(5),
        text_relocs: given.number32(6),
        data_relocs: given.number32(7),
    };
    if header_fits(&header) {
        out.put_bytes(&write_header(&header));
    } else {
        out.put(b"unfit");
    }
}

#[derive(Drop)]
struct AoutLayout;

impl Calls for AoutLayout {
    fn answer(&mut self, call: &str, given: &Given, out: &mut Answer) {
        match call {
            "read_header" => read(given, out),
            _ => write(given, out),
        }
    }
}

const CALLS: &[u8] = b"
read_header : order rest
write_header : order number16 number32 number32 number32 number32 number32 number32 number32
";

// In `read_header` 16:25 sets the word at 16 to 25.
const ROWS: &[u8] = b"
# machine word, text, data, bss, bytes of entries, entry word, bytes of text and data relocations
read_header little -> little 0064 01020304 05060708 090a0b0c 00000018 00001000 00000010 00000008
read_header big -> big 0064 01020304 05060708 090a0b0c 00000018 00001000 00000010 00000008
write_header little 0x64 0x01020304 0x05060708 0x090a0b0c 24 0x1000 16 8 -> 0701640004030201080706050c0b0a0918000000001000001000000008000000
write_header big 0x64 0x01020304 0x05060708 0x090a0b0c 24 0x1000 16 8 -> 006401070102030405060708090a0b0c00000018000010000000001000000008
# the greatest machine word
read_header little 0:0xffff0107 -> little ffff 01020304 05060708 090a0b0c 00000018 00001000 00000010 00000008

# the magic less one, and of NMAGIC, each with 25 bytes of entries
read_header little 0:0x00640106 16:25 -> fault 1 0
read_header little 0:0x00640108 16:25 -> fault 1 0
read_header big 0:0x00640108 16:25 -> fault 1 0
# the magic in the high half alone, without a magic in either order
read_header little 0:0x01070064 -> fault 1 0
# the magic in both orders, and 25 bytes of entries
read_header little 0:0x07010107 16:25 -> fault 2 0
read_header big 0:0x07010107 16:25 -> fault 2 0
# 25 bytes of entries, and 9 of text relocations
read_header little 16:25 24:9 -> fault 3 16
read_header big 16:25 24:9 -> fault 3 16
read_header big 16:23 -> fault 3 16
# 9 bytes of text relocations, and 9 of data relocations
read_header little 24:9 28:9 -> fault 4 24
read_header big 24:9 28:9 -> fault 4 24
read_header big 24:12 -> fault 4 24
# 9 bytes of data relocations, and text past the addresses
read_header little 28:9 4:0xff020304 -> fault 4 28
read_header big 28:9 4:0xff020304 -> fault 4 28
# text past the addresses
read_header little 4:0xff020304 -> fault 7 20
read_header big 4:0xff020304 -> fault 7 20
# the end of bss at the highest address, and past it
read_header big 4:1 8:2 12:3 20:0xfffffff9 -> big 0064 00000001 00000002 00000003 00000018 fffffff9 00000010 00000008
read_header big 4:1 8:2 12:3 20:0xfffffffa -> fault 7 20

# the machine word makes the magic in both orders
write_header little 0x0701 0 0 0 0 0 0 0 -> unfit
write_header big 0x0701 0 0 0 0 0 0 0 -> unfit
write_header big 0x0107 0 0 0 0 0 0 0 -> 0107010700000000000000000000000000000000000000000000000000000000
# 8 bytes of entries
write_header little 0x64 0 0 0 8 0 0 0 -> unfit
# 12 bytes of text relocations, and of data relocations
write_header little 0x64 0 0 0 0 0 12 0 -> unfit
write_header little 0x64 0 0 0 0 0 0 12 -> unfit
# the end of bss past the addresses, and at the highest
write_header big 0x64 1 2 3 0 0xfffffffa 0 0 -> unfit
write_header big 0x64 1 2 3 0 0xfffffff9 0 0 -> 0064010700000001000000020000000300000000fffffff90000000000000000
";

#[test]
fn aout_layout_answers(rt: HostRuntime) {
    all_hold(&rt, rt.alloc(), &mut AoutLayout, CALLS, ROWS);
}
