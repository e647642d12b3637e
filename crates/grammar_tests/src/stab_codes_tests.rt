use crate::holds::all_hold;
use stab_codes::{Segment, carries_symbol, code_name, code_of, segment_of};
use test_tables::{Answer, Calls, Given};

fn letter_of(segment: Segment) -> u8 {
    match segment {
        Segment::Still => b'-',
        Segment::Text => b't',
        Segment::Datum => b'd',
        Segment::Bss => b'b',
    }
}

/// The name of a code.
fn name(code: u8, out: &mut Answer) {
    match code_name(code) {
        Some(name) => out.put_bytes(name),
        None => out.put(b"none"),
    }
}

/// The code of a name.
fn code(name: &[u8], out: &mut Answer) {
    match code_of(name) {
        Some(code) => out.put_byte(code),
        None => out.put(b"none"),
    }
}

/// The segments of the 32 kinds from one on.
fn segments(first: u8, out: &mut Answer) {
    for more in 0..32u8 {
        let letter = letter_of(segment_of(first.wrapping_add(more)));
        let written = out.text.push(letter);
        out.wrote(written);
    }
}

/// How many of the 256 kinds have a name.
fn named(out: &mut Answer) {
    let mut count = 0u64;
    for kind in 0..=255u8 {
        if code_name(kind).is_some() {
            count = count.wrapping_add(1);
        }
    }
    out.put_number(count);
}

/// The kinds of the 256 that carry a symbol.
fn carrying(out: &mut Answer) {
    for kind in 0..=255u8 {
        if carries_symbol(kind) {
            out.put_byte(kind);
        }
    }
}

#[derive(Drop)]
struct StabCodes;

impl Calls for StabCodes {
    fn answer(&mut self, call: &str, given: &Given, out: &mut Answer) {
        match call {
            "code_name" => name(given.number8(0), out),
            "code_of" => code(given.bytes(0), out),
            "segments_of" => segments(given.number8(0), out),
            "named" => named(out),
            _ => carrying(out),
        }
    }
}

const CALLS: &[u8] = b"
code_name : number8
code_of : bytes
segments_of : number8
named : nothing
carrying : nothing
";

const ROWS: &[u8] = b"
# each name, by its code
code_name 0x20 -> 'N_GSYM'
code_name 0x24 -> 'N_FUN'
code_name 0x26 -> 'N_STSYM'
code_name 0x28 -> 'N_LCSYM'
code_name 0x2a -> 'N_MAIN'
code_name 0x2c -> 'N_ROSYM'
code_name 0x3c -> 'N_OPT'
code_name 0x40 -> 'N_RSYM'
code_name 0x44 -> 'N_SLINE'
code_name 0x64 -> 'N_SO'
code_name 0x80 -> 'N_LSYM'
code_name 0x82 -> 'N_BINCL'
code_name 0x84 -> 'N_SOL'
code_name 0xa0 -> 'N_PSYM'
code_name 0xa2 -> 'N_EINCL'
code_name 0xc0 -> 'N_LBRAC'
code_name 0xc2 -> 'N_EXCL'
code_name 0xe0 -> 'N_RBRAC'
# and no other kind of the 256
named -> 18

# each code, by its name
code_of 'N_GSYM' -> 20
code_of 'N_FUN' -> 24
code_of 'N_STSYM' -> 26
code_of 'N_LCSYM' -> 28
code_of 'N_MAIN' -> 2a
code_of 'N_ROSYM' -> 2c
code_of 'N_OPT' -> 3c
code_of 'N_RSYM' -> 40
code_of 'N_SLINE' -> 44
code_of 'N_SO' -> 64
code_of 'N_LSYM' -> 80
code_of 'N_BINCL' -> 82
code_of 'N_SOL' -> 84
code_of 'N_PSYM' -> a0
code_of 'N_EINCL' -> a2
code_of 'N_LBRAC' -> c0
code_of 'N_EXCL' -> c2
code_of 'N_RBRAC' -> e0
# lower case
code_of 'n_fun' -> none
# the front of a name, and a longer one
code_of 'N_FU' -> none
code_of 'N_FUN'20 -> none
code_of 'N_SOLX' -> none
# codes of other languages than C
code_of 'N_FNAME' -> none
code_of 'N_LENG' -> none
code_of . -> none

# global, function, static, in bss, read-only, in a register, on the stack, parameter
carrying -> 20 24 26 28 2c 40 80 a0

# by the bits 0x1e: 4 is text, 6 data, 8 bss, and the lowest bit tells nothing
segments_of 0x00 -> ----ttddbb----------------------
segments_of 0x20 -> ----ttddbb----------------------
segments_of 0x40 -> ----ttddbb----------------------
segments_of 0x60 -> ----ttddbb----------------------
segments_of 0x80 -> ----ttddbb----------------------
segments_of 0xa0 -> ----ttddbb----------------------
segments_of 0xc0 -> ----ttddbb----------------------
segments_of 0xe0 -> ----ttddbb----------------------
";

#[test]
fn stab_codes_answer(rt: HostRuntime) {
    all_hold(&rt, rt.alloc(), &mut StabCodes, CALLS, ROWS);
}
