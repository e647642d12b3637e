ghost use Rattle.std.specs.Prelude.{◌≡◌, position};
ghost use Rattle.strtab.specs.StringTable.{is_zero};

use crate::holds::all_hold;
use strtab::{Builder, check_table, name_at};
use test_tables::{Answer, Calls, Given};

fn name(given: &Given, out: &mut Answer) {
    match name_at(given.bytes(0), given.number32(0)) {
        Ok(name) => out.put_bytes(name),
        Err(fault) => out.put_fault(&fault),
    }
}

/// The place of the first zero byte.
pub fn zero_in(bytes: &[u8]) -> Option<usize>
    ensures { result ≡ position is_zero bytes.now }
{
    bytes.iter().position(|b| *b == 0)
}

fn add(builder: &mut Builder, spelled: &[u8], out: &mut Answer) {
    let name = out.bytes_in(spelled);
    if zero_in(name.bytes()).is_some() {
        return out.refuse();
    }
    match builder.add(name.bytes()) {
        Ok(strx) => out.put_number(u64::from(strx)),
        Err(refused) => out.put_refused(&refused),
    }
}

/// An order, and names: the offset of each, and the table.
fn build(given: &Given, out: &mut Answer) {
    match Builder::new(out.alloc) {
        Ok(mut builder) => {
            if !given.rest.is_empty() {
                for spelled in given.rest.split(|b| *b == b' ') {
                    add(&mut builder, spelled, out);
                }
            }
            out.put_bytes(builder.finish(given.order).bytes());
        }
        Err(_) => out.lose(),
    }
}

#[derive(Drop)]
struct Strtab;

impl Calls for Strtab {
    fn answer(&mut self, call: &str, given: &Given, out: &mut Answer) {
        match call {
            "check_table" => out.put_checked(check_table(given.order, given.bytes(0))),
            "name_at" => name(given, out),
            _ => build(given, out),
        }
    }
}

const CALLS: &[u8] = b"
check_table : order bytes
name_at : bytes number32
build : order rest
";

const ROWS: &[u8] = b"
# the length in either order
check_table little 0c000000'a.c'00'int'00 -> ok
check_table big 0000000c'a.c'00'int'00 -> ok
# the other order
check_table big 0c000000'a.c'00'int'00 -> fault 10 0
check_table little 0000000c'a.c'00'int'00 -> fault 10 0
# a word that does not count itself
check_table little 03000000'ab'00 -> fault 10 0
# one byte short, and one too many
check_table little 0c000000'a.c'00'int' -> fault 10 0
check_table little 0c000000'a.c'00'int'0000 -> fault 10 0
# the word alone
check_table big 00000004 -> ok
check_table little 04000000 -> ok
# too few bytes for a word
check_table little 030000 -> fault 10 0
check_table big . -> fault 10 0

# no name
name_at 0c000000'a.c'00'int'00 0 -> .
name_at . 0 -> .
name_at 0c000000'a.c'00'int'00 4 -> 'a.c'
name_at 0c000000'a.c'00'int'00 8 -> 'int'
# the end of a name, and its zero byte
name_at 0c000000'a.c'00'int'00 9 -> 'nt'
name_at 0c000000'a.c'00'int'00 11 -> .
# inside the length word
name_at 0c000000'a.c'00'int'00 1 -> fault 11 1
name_at 0c000000'a.c'00'int'00 3 -> fault 11 3
name_at . 3 -> fault 11 3
# at the end of the table, and far past it
name_at 0c000000'a.c'00'int'00 12 -> fault 12 12
name_at 0c000000'a.c'00'int'00 4294967295 -> fault 12 4294967295
name_at . 4 -> fault 12 4
# no zero byte behind the first byte of a name, and its last
name_at 07000000'a.c' 4 -> fault 13 4
name_at 07000000'a.c' 6 -> fault 13 6

# each name once, in order of first use, and no place for an empty one
build little 'a.c' . 'int' 'a.c' -> 4 0 8 4 0c000000'a.c'00'int'00
build big 'a.c' . 'int' 'a.c' -> 4 0 8 4 0000000c'a.c'00'int'00
# a name that another one ends in
build big 'int' 'nt' -> 4 8 0000000b'int'00'nt'00
# a table without names
build little -> 04000000
build big -> 00000004
build big . -> 0 00000004
";

#[test]
fn strtab_answers(rt: HostRuntime) {
    all_hold(&rt, rt.alloc(), &mut Strtab, CALLS, ROWS);
}
