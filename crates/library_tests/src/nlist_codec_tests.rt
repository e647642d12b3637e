use crate::holds::all_hold;
use nlist_codec::{Entry, read_entries, read_entry, write_entry};
use st_base::Order;
use test_tables::{Answer, Calls, Given};

/// Writes the fields of each entry in their order, each as its bytes with the most significant one first.
pub fn put_each_entry(entries: &[Entry], out: &mut Answer) {
    for entry in entries {
        out.put_word32(entry.strx);
        out.put_byte(entry.kind);
        out.put_byte(entry.other);
        out.put_word16(entry.desc);
        out.put_word32(entry.value);
    }
}

fn read(given: &Given, out: &mut Answer) {
    match (given.bytes(0).split_first_chunk::<12>(), given.order) {
        (Some((record, _)), Order::Little) => put_each_entry(&[read_entry::<false>(record)], out),
        (Some((record, _)), Order::Big) => put_each_entry(&[read_entry::<true>(record)], out),
        (None, _) => out.refuse(),
    }
}

fn write(given: &Given, out: &mut Answer) {
    let entry = Entry {
        strx: given.number32(0),
        kind: given.number8(1),
        other: given.number8(2),
        desc: given.number16(3),
        value: given.number32(4),
    };
    match given.order {
        Order::Little => out.put_bytes(&write_entry::<false>(&entry)),
        Order::Big => out.put_bytes(&write_entry::<true>(&entry)),
    }
}

fn read_all(given: &Given, out: &mut Answer) {
    let bytes = given.bytes(0);
    if bytes.len() % 12 != 0 {
        return out.refuse();
    }
    match read_entries(out.alloc, given.order, bytes) {
        Ok(entries) => {
            out.put_number(entries.len() as u64);
            put_each_entry(entries.items(), out);
        }
        Err(_) => out.lose(),
    }
}

#[derive(Drop)]
struct NlistCodec;

impl Calls for NlistCodec {
    fn answer(&mut self, call: &str, given: &Given, out: &mut Answer) {
        match call {
            "read_entry" => read(given, out),
            "write_entry" => write(given, out),
            _ => read_all(given, out),
        }
    }
}

const CALLS: &[u8] = b"
read_entry : order bytes
write_entry : order number32 number8 number8 number16 number32
read_entries : order bytes
";

const ROWS: &[u8] = b"
# strx, kind, other, desc, value
read_entry little 04000000_44_00_0700_00100000 -> 00000004 44 00 0007 00001000
read_entry big 00000004_44_00_0007_00001000 -> 00000004 44 00 0007 00001000
# each byte of its own
read_entry little 01020304_05_06_0708_090a0b0c -> 04030201 05 06 0807 0c0b0a09
read_entry big 01020304_05_06_0708_090a0b0c -> 01020304 05 06 0708 090a0b0c
write_entry little 4 0x44 0 7 0x1000 -> 04000000_44_00_0700_00100000
write_entry big 4 0x44 0 7 0x1000 -> 00000004_44_00_0007_00001000
write_entry little 0x04030201 5 6 0x0807 0x0c0b0a09 -> 01020304_05_06_0708_090a0b0c
write_entry big 0x01020304 5 6 0x0708 0x090a0b0c -> 01020304_05_06_0708_090a0b0c
# the greatest numbers
write_entry big 4294967295 255 255 65535 4294967295 -> ffffffff_ff_ff_ffff_ffffffff

# two entries, in their order
read_entries little 04000000_64_00_0000_00100000_00000000_44_01_0302_07060504 -> 2 00000004 64 00 0000 00001000 00000000 44 01 0203 04050607
read_entries big 00000004_64_00_0000_00001000_00000000_44_01_0203_04050607 -> 2 00000004 64 00 0000 00001000 00000000 44 01 0203 04050607
read_entries big . -> 0
";

#[test]
fn nlist_codec_answers(rt: HostRuntime) {
    all_hold(&rt, rt.alloc(), &mut NlistCodec, CALLS, ROWS);
}
