use crate::holds::all_hold;
use readers::{
    Refusal, Stop, TextFault, Unread, bad, byte_at, digits_at, is_digit, name_at, number_and,
    number_at, text_of, told, whole_number,
};
use test_tables::{Answer, Calls, Given, shown};

// ---- answers

fn put_at(name: &[u8], place: usize, out: &mut Answer) {
    out.put(name);
    out.put_number(place as u64);
}

fn put_refusal(refusal: Refusal, out: &mut Answer) {
    match refusal {
        Refusal::Memory => out.lose(),
        Refusal::At(Stop::End) => out.put(b"end"),
        Refusal::At(Stop::Bad(left)) => put_at(b"bad", left, out),
        Refusal::At(Stop::Deep(left)) => put_at(b"deep", left, out),
    }
}

/// The number that was read, and what stands behind it.
fn put_numbered(read: Result<(u32, &[u8]), Refusal>, out: &mut Answer) {
    match read {
        Ok((number, rest)) => {
            out.put_number(u64::from(number));
            out.put_bytes(rest);
        }
        Err(refusal) => put_refusal(refusal, out),
    }
}

/// The bytes that were read, and what stands behind them.
fn put_parted(read: Result<(&[u8], &[u8]), Refusal>, out: &mut Answer) {
    match read {
        Ok((front, rest)) => {
            out.put_bytes(front);
            out.put_bytes(rest);
        }
        Err(refusal) => put_refusal(refusal, out),
    }
}

fn put_unread(unread: Unread, out: &mut Answer) {
    match unread {
        Unread::Memory => out.put(b"memory"),
        Unread::At(TextFault::Byte(place)) => put_at(b"byte", place, out),
        Unread::At(TextFault::End(place)) => put_at(b"end", place, out),
        Unread::At(TextFault::Deep(place)) => put_at(b"deep", place, out),
    }
}

// ---- calls

/// The greatest number, at least 9, and the text.
fn limited(call: &str, given: &Given, out: &mut Answer) {
    let limit = given.number32(0);
    let text = given.bytes(0);
    if limit < 9 {
        return out.refuse();
    }
    match call {
        "whole_number" => match whole_number(limit, text) {
            Some(number) => out.put_number(u64::from(number)),
            None => out.put(b"none"),
        },
        "number_at" => put_numbered(number_at(limit, text), out),
        _ => put_numbered(number_and(limit, given.number8(1), text), out),
    }
}

fn byte(wanted: u8, text: &[u8], out: &mut Answer) {
    match byte_at(wanted, text) {
        Ok(((), rest)) => out.put_bytes(rest),
        Err(refusal) => put_refusal(refusal, out),
    }
}

fn digit(b: u8, out: &mut Answer) {
    if is_digit(b) {
        out.put(b"yes");
    } else {
        out.put(b"no");
    }
}

fn text(given: &Given, out: &mut Answer) {
    match text_of(out.alloc, given.bytes(0)) {
        Ok(text) => out.put_bytes(text.bytes()),
        Err(refusal) => put_refusal(refusal, out),
    }
}

/// The length of a text, why reading stops, and how many bytes are left there, not more than the length.
fn place(given: &Given, out: &mut Answer) {
    let all = usize::from(given.number8(0));
    let left = usize::from(given.number8(1));
    if all < left {
        return out.refuse();
    }
    let unread = match shown(given.word) {
        "bad" => told(all, Refusal::At(Stop::Bad(left))),
        "deep" => told(all, Refusal::At(Stop::Deep(left))),
        "end" => told(all, Refusal::At(Stop::End)),
        "memory" => told(all, Refusal::Memory),
        _ => return out.refuse(),
    };
    put_unread(unread, out);
}

#[derive(Drop)]
struct Readers;

impl Calls for Readers {
    fn answer(&mut self, call: &str, given: &Given, out: &mut Answer) {
        match call {
            "name_at" => {
                let (end, barred) = (given.number8(0), given.number8(1));
                put_parted(name_at(end, barred, given.bytes(0)), out);
            }
            "digits_at" => {
                let more = usize::from(given.number8(0));
                put_parted(digits_at(more, given.bytes(0)), out);
            }
            "byte_at" => byte(given.number8(0), given.bytes(0), out),
            "is_digit" => digit(given.number8(0), out),
            "text_of" => text(given, out),
            "bad" => put_refusal(bad(given.bytes(0)), out),
            "told" => place(given, out),
            _ => limited(call, given, out),
        }
    }
}

const CALLS: &[u8] = b"
whole_number : number32 bytes
number_at : number32 bytes
number_and : number32 bytes number8
name_at : number8 number8 bytes
digits_at : number8 bytes
byte_at : number8 bytes
is_digit : number8
text_of : bytes
bad : bytes
told : number8 word number8
";

const ROWS: &[u8] = b"
# the greatest number, and a text
whole_number 4294967295 '0' -> 0
whole_number 4294967295 '4294967295' -> 4294967295
whole_number 9 '9' -> 9
# nothing but a number without a leading zero, up to the limit
whole_number 4294967295 . -> none
whole_number 4294967295 '00' -> none
whole_number 4294967295 '01' -> none
whole_number 4294967295 '+1' -> none
whole_number 4294967295 '-1' -> none
whole_number 4294967295 '1'20 -> none
whole_number 4294967295 20'1' -> none
whole_number 4294967295 '1a' -> none
whole_number 4294967295 '4294967296' -> none
whole_number 4294967295 '99999999999999999999' -> none
whole_number 65535 '65535' -> 65535
whole_number 65535 '65536' -> none

# a number, and what stands behind it
number_at 2147483647 '7' -> 7 .
number_at 2147483647 '12,3' -> 12 ',3'
number_at 2147483647 '2147483647' -> 2147483647 .
# a digit that would exceed the limit is left
number_at 2147483647 '2147483648' -> 214748364 '8'
number_at 20 '21' -> 2 '1'
number_at 20 '20' -> 20 .
# nothing is read behind a zero
number_at 20 '07' -> 0 '7'
number_at 20 . -> end
number_at 20 'x7' -> bad 2
number_at 20 '-' -> bad 1
number_at 20 '/' -> bad 1
number_at 20 ':' -> bad 1

# a number and a comma
number_and 20 '7,x' 0x2c -> 7 'x'
number_and 20 '7,' 0x2c -> 7 .
number_and 20 '7;x' 0x2c -> bad 2
number_and 20 '7' 0x2c -> end
number_and 20 . 0x2c -> end
number_and 20 ',' 0x2c -> bad 1
# a digit is left where a comma is wanted
number_and 20 '21,' 0x2c -> bad 2

# a name up to a colon, nothing barred but a zero byte
name_at 0x3a 0 'a;:x' -> 'a;' 'x'
name_at 0x3a 0 ':' -> . .
name_at 0x3a 0 'a::' -> 'a' ':'
name_at 0x3a 0 'a' -> end
name_at 0x3a 0 . -> end
name_at 0x3a 0 'a'00':x' -> bad 3
# a semicolon is barred too
name_at 0x3a 0x3b 'a;:x' -> bad 3
name_at 0x3a 0x3b 'a:;x' -> 'a' ';x'
name_at 0x3a 0x3b 00 -> bad 1

# one digit and at most so many more
digits_at 39 '007x' -> '007' 'x'
digits_at 39 '0' -> '0' .
digits_at 1 '007' -> '00' '7'
digits_at 2 '007' -> '007' .
digits_at 0 '07' -> '0' '7'
digits_at 39 . -> end
digits_at 39 'x7' -> bad 2

# a semicolon, and what stands behind it
byte_at 0x3b ';x' -> 'x'
byte_at 0x3b ';' -> .
byte_at 0x3b ',x' -> bad 2
byte_at 0x3b . -> end

# both sides of the digits
is_digit 0x2f -> no
is_digit 0x30 -> yes
is_digit 0x39 -> yes
is_digit 0x3a -> no

# the same bytes
text_of . -> .
text_of 'int'00ff -> 'int'00ff

# how many bytes are left
bad 'abc' -> bad 3
bad . -> bad 0

# the place of the byte with which so many are left
told 7 bad 3 -> byte 4
told 7 bad 7 -> byte 0
told 7 deep 2 -> deep 5
told 7 end 0 -> end 7
told 0 end 0 -> end 0
told 7 memory 0 -> memory
";

#[test]
fn readers_answer(rt: HostRuntime) {
    all_hold(&rt, rt.alloc(), &mut Readers, CALLS, ROWS);
}
