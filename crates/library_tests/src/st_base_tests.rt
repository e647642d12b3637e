use crate::holds::all_hold;
use st_base::{
    Boxed, Fault, Layout, List, Memory, Order, Steps, Text, first_word, put_hex2, put_hex4,
    put_hex8, put_number, set_first_word, show,
};
use std::alloc::Global;
use std::marker::Brand;
use test_tables::{Answer, Calls, Given};

// ---- printed forms

fn shown_form(given: &Given, out: &mut Answer) {
    let mut text = Text::new(out.alloc);
    let written = show(&mut text, given.bytes(0));
    out.wrote(written);
    out.put_bytes(text.bytes());
}

// The number in decimal, the lowest byte in two digits, the lowest two in four, and all in eight.
fn put_numerals(number: u32, out: &mut Text) -> Result<(), Memory> {
    put_number(u64::from(number), out)?;
    out.push(b' ')?;
    put_hex2((number % 0x100) as u8, out)?;
    out.push(b' ')?;
    put_hex4((number % 0x1_0000) as u16, out)?;
    out.push(b' ')?;
    put_hex8(number, out)
}

fn numerals(given: &Given, out: &mut Answer) {
    let mut text = Text::new(out.alloc);
    let written = put_numerals(given.number32(0), &mut text);
    out.wrote(written);
    out.put_bytes(text.bytes());
}

// ---- fields

/// A place, which is at most 8, how many bytes, and a number: twelve bytes 0xee with the number set, and the number that is read there.
fn field<const BIG: bool>(given: &Given, out: &mut Answer) {
    let at = usize::from(given.number8(0));
    let value = given.number32(2);
    if 8 < at {
        return out.refuse();
    }
    let mut record = [0xee; 12];
    let read = match given.number8(1) {
        1 => {
            Layout::<BIG, 12>::put_u8(&mut record, at, (value % 0x100) as u8);
            u32::from(Layout::<BIG, 12>::get_u8(&record, at))
        }
        2 => {
            Layout::<BIG, 12>::put_u16(&mut record, at, (value % 0x1_0000) as u16);
            u32::from(Layout::<BIG, 12>::get_u16(&record, at))
        }
        3 => {
            Layout::<BIG, 12>::put_u24(&mut record, at, value % 0x100_0000);
            Layout::<BIG, 12>::get_u24(&record, at)
        }
        _ => {
            Layout::<BIG, 12>::put_u32(&mut record, at, value);
            Layout::<BIG, 12>::get_u32(&record, at)
        }
    };
    out.put_bytes(&record);
    out.put_word32(read);
}

fn first(given: &Given, out: &mut Answer) {
    match first_word(given.order, given.bytes(0)) {
        Some(first) => out.put_word32(first),
        None => out.put(b"none"),
    }
}

// ---- texts

fn cut_text(text: &mut Text, to: u32, out: &mut Answer) {
    if to as usize <= text.bytes().len() {
        text.cut(to as usize);
    } else {
        out.refuse();
    }
}

fn set_first(text: &mut Text, given: &Given, out: &mut Answer) {
    if 4 <= text.bytes().len() {
        set_first_word(given.order, text.bytes_mut(), given.number32(0));
    } else {
        out.refuse();
    }
}

/// The text with another first byte.
fn with_first(text: &mut Text, byte: u8) {
    if let [first, ..] = text.bytes_mut() {
        *first = byte;
    }
}

/// What a call leaves in a text.
fn change_text(call: &str, given: &Given, text: &mut Text, out: &mut Answer) -> Result<(), Memory> {
    match call {
        "text of" => {}
        "text copy" => *text = text.copy(out.alloc)?,
        "text push" => text.push(given.number8(0))?,
        "text extend" => text.extend(given.bytes(1))?,
        "text cut" => cut_text(text, given.number32(0), out),
        "text first" => with_first(text, given.number8(0)),
        "set_first_word" => set_first(text, given, out),
        _ => out.refuse(),
    }
    Ok(())
}

/// A text, and what else the call takes: the text behind the call.
fn text_call(call: &str, given: &Given, out: &mut Answer) {
    match Text::of(out.alloc, given.bytes(0)) {
        Ok(mut text) => {
            let changed = change_text(call, given, &mut text, out);
            out.wrote(changed);
            out.put_bytes(text.bytes());
        }
        Err(_) => out.lose(),
    }
}

// ---- lists and boxes

fn list_of(alloc: Global, items: &[u8]) -> Result<List<Boxed<u8>>, Memory> {
    let mut list = List::new(alloc);
    for item in items {
        list.push(Boxed::new(alloc, *item)?)?;
    }
    Ok(list)
}

fn put_list(list: &List<Boxed<u8>>, out: &mut Answer) {
    out.put_number(list.len() as u64);
    for item in list.items() {
        out.put_number(u64::from(*item.get()));
    }
}

fn get(list: &List<Boxed<u8>>, at: u32, out: &mut Answer) {
    match list.get(at as usize) {
        Some(item) => out.put_number(u64::from(*item.get())),
        None => out.put(b"none"),
    }
}

fn replace(list: &mut List<Boxed<u8>>, at: u32, item: u8, out: &mut Answer) {
    let at = at as usize;
    match Boxed::new(out.alloc, item) {
        Ok(item) => {
            if at < list.len() {
                let old = list.replace(at, item);
                out.put_number(u64::from(old.into_inner()));
            } else {
                out.refuse();
            }
        }
        Err(_) => out.lose(),
    }
    put_list(list, out);
}

fn cut_list(list: &mut List<Boxed<u8>>, to: u32, out: &mut Answer) {
    if to as usize <= list.len() {
        list.cut(to as usize);
    } else {
        out.refuse();
    }
    put_list(list, out);
}

/// The items of a list of boxed bytes, and what else the call takes: what it gives, and the length and the items.
fn list_call(call: &str, given: &Given, out: &mut Answer) {
    match list_of(out.alloc, given.bytes(0)) {
        Ok(mut list) => match call {
            "list of" => put_list(&list, out),
            "list get" => get(&list, given.number32(0), out),
            "list replace" => replace(&mut list, given.number32(0), given.number8(1), out),
            _ => cut_list(&mut list, given.number32(0), out),
        },
        Err(_) => out.lose(),
    }
}

#[derive(Drop)]
struct StBase;

impl Calls for StBase {
    fn answer(&mut self, call: &str, given: &Given, out: &mut Answer) {
        match call {
            "show" => shown_form(given, out),
            "numerals" => numerals(given, out),
            "field" => match given.order {
                Order::Little => field::<false>(given, out),
                Order::Big => field::<true>(given, out),
            },
            "first_word" => first(given, out),
            "fault" => out.put_fault(&Fault::at(given.number16(0), given.number(1))),
            "size_of_steps" => out.put_number(std::mem::size_of::<Steps<Brand>>() as u64),
            "list of" => list_call(call, given, out),
            "list get" => list_call(call, given, out),
            "list replace" => list_call(call, given, out),
            "list cut" => list_call(call, given, out),
            _ => text_call(call, given, out),
        }
    }
}

const CALLS: &[u8] = b"
show : bytes
numerals : number32
field : order number8 number8 number32
first_word : order bytes
set_first_word : order bytes number32
text of : bytes
text copy : bytes
text push : bytes number8
text extend : bytes bytes
text cut : bytes number32
text first : bytes number8
list of : bytes
list get : bytes number32
list replace : bytes number32 number8
list cut : bytes number32
fault : number16 number64
size_of_steps : nothing
";

const ROWS: &[u8] = b"
# printed bytes
show 'int' -> 'int'
# an empty text
show . -> '-'
# a text that an empty one is shown as
show '-' -> '\\x2d'
show '--' -> '--'
# a blank, a backslash, and both sides of the printed bytes
show 'long'20'int\\'00_7f_ff'!~' -> 'long\\x20int\\x5c\\x00\\x7f\\xff!~'

# a number in decimal and in hexadecimal digits
numerals 0 -> '0'20'00'20'0000'20'00000000'
numerals 0x12a0f -> '76303'20'0f'20'2a0f'20'00012a0f'
numerals 0xffffffff -> '4294967295'20'ff'20'ffff'20'ffffffff'

# each width, at the places of one record
field big 1 1 0x11 -> ee11eeeeeeeeeeeeeeeeeeee 00000011
field big 2 2 0x2122 -> eeee2122eeeeeeeeeeeeeeee 00002122
field big 4 3 0x313233 -> eeeeeeee313233eeeeeeeeee 00313233
field big 7 4 0x41424344 -> eeeeeeeeeeeeee41424344ee 41424344
field little 1 1 0x11 -> ee11eeeeeeeeeeeeeeeeeeee 00000011
field little 2 2 0x2122 -> eeee2221eeeeeeeeeeeeeeee 00002122
field little 4 3 0x313233 -> eeeeeeee333231eeeeeeeeee 00313233
field little 7 4 0x41424344 -> eeeeeeeeeeeeee44434241ee 41424344
# a field at either end of a record
field big 0 4 0x41424344 -> 41424344eeeeeeeeeeeeeeee 41424344
field little 8 4 0x41424344 -> eeeeeeeeeeeeeeee44434241 41424344

# the magic 0x0107 and the machine word 0x64
first_word little 07016400 -> 00640107
first_word big 00640107 -> 00640107
# bytes behind the word
first_word little 0c000000'a.c'00 -> 0000000c
first_word big 0000000c'a.c'00 -> 0000000c
# too few bytes
first_word little 070164 -> none
first_word big . -> none
set_first_word little ffffffff'a.c'00 12 -> 0c000000'a.c'00
set_first_word big ffffffff'a.c'00 12 -> 0000000c'a.c'00
set_first_word big 00000000 0x11223344 -> 11223344

# a text, and what a call leaves in it
text of . -> .
text of 'int' -> 'int'
text copy 'int' -> 'int'
text push . 0xff -> ff
text push 'in' 0x74 -> 'int'
text extend 'in' . -> 'in'
text extend . 'int' -> 'int'
text extend 'long' 20'int' -> 'long'20'int'
text cut 'int' 0 -> .
text cut 'int' 2 -> 'in'
text cut 'int' 3 -> 'int'
text first 'int' 0x61 -> 'ant'

# a list: its length and its items
list of . -> 0
list of 070509 -> 3 7 5 9
list get 070509 0 -> 7
list get 070509 2 -> 9
# the place behind the last item
list get 070509 3 -> none
list replace 070509 1 200 -> 5 3 7 200 9
list replace 07 0 1 -> 7 1 1
list cut 070509 3 -> 3 7 5 9
list cut 070509 1 -> 1 7
list cut 070509 0 -> 0

# a number and a place
fault 41 7 -> fault 41 7
fault 94 4294967295 -> fault 94 4294967295

# a counter of steps has no bytes
size_of_steps -> 0
";

#[test]
fn st_base_answers(rt: HostRuntime) {
    all_hold(&rt, rt.alloc(), &mut StBase, CALLS, ROWS);
}
