ghost use Rattle.std.specs.Prelude.{◌≡◌};

use st_base::{Fault, Refused, Steps, Text};
use stab_grammar::{Symbol, parse, print};
use std::alloc::Global;
use std::marker::Brand;
use std::sync::ledger::{Blank, Ledger};
use test_tables::{Answer, Told, cut, number_of};

// Tables of stab strings, a line for each. Under a string that spells no symbol stands the mark `^` under the byte of its fault,
// or under the place behind its last byte where it ends too early, with the number of the fault and the case:
//
//     x:t01
//         ^40 a digit behind a number that is 0
//
// A line that begins with `#` says what the strings under it are.

fn counted<L: Ledger>(alloc: Global, text: &[u8], blank: Blank) -> Result<Symbol, Refused>
    requires name { blank.name ≡ L.name }
    requires parts { blank.parts ≡ L.parts }
    requires whole { blank.parts ≡ 1 }
{
    let mut steps = Steps::<L>::new(blank);
    parse(alloc, text, &mut steps)
}

/// What `parse` answers, its steps not counted.
pub fn parsed(alloc: Global, text: &[u8]) -> Result<Symbol, Refused> {
    counted::<Brand>(alloc, text, Blank::new(1))
}

/// Writes `same` where a symbol is printed as its string stood, and else how it is printed.
fn put_again(symbol: &Symbol, text: &[u8], out: &mut Answer) {
    let mut printed = Text::new(out.alloc);
    let written = print(symbol, &mut printed);
    out.wrote(written);
    if printed.bytes() == text {
        out.put(b"same");
    } else {
        out.put(printed.bytes());
    }
}

/// Writes `same` where the string is read, and printed as it stood, and else its fault.
pub fn put_read(text: &[u8], out: &mut Answer) {
    match parsed(out.alloc, text) {
        Err(refused) => out.put_refused(&refused),
        Ok(symbol) => put_again(&symbol, text, out),
    }
}

fn answers(told: &mut Told, text: &[u8], said: Answer) {
    let mut out = Answer::new(said.alloc);
    put_read(text, &mut out);
    match said.ended() {
        Ok(said) => told.compare(b"", text, out.ended(), said.bytes()),
        Err(_) => told.lose(),
    }
}

/// Tells a string that is not read, or not printed as it stood.
pub fn reads(told: &mut Told, alloc: Global, text: &[u8]) {
    let mut said = Answer::new(alloc);
    said.put(b"same");
    answers(told, text, said);
}

/// Tells a string that is not refused with this fault.
pub fn refuses(told: &mut Told, alloc: Global, text: &[u8], number: u16, place: usize) {
    let mut said = Answer::new(alloc);
    said.put_fault(&Fault::at(number, place as u64));
    answers(told, text, said);
}

/// Tells the strings of a table that are not read, or not printed as they stood.
pub fn reads_all(alloc: Global, table: &[u8]) -> Told {
    let mut told = Told::new(alloc);
    for line in table.split(|b| *b == b'\n') {
        match line {
            [] => {}
            [b'#', ..] => {}
            text => reads(&mut told, alloc, text),
        }
    }
    told
}

/// The place of the mark in its line, and what stands behind it.
fn mark_in(line: &[u8]) -> Option<(usize, &[u8])> {
    for at in 0..line.len() {
        match line[at] {
            b' ' => {}
            b'^' => return Some((at, &line[at + 1..])),
            _ => return None,
        }
    }
    None
}

/// The number of the fault that stands behind a mark, before the case.
fn fault_in(behind: &[u8]) -> Option<u16> {
    let spelled = match cut(behind, b' ') {
        Some((spelled, _)) => spelled,
        None => behind,
    };
    match number_of(0xffff, spelled) {
        Ok(number) => Some(number as u16),
        Err(_) => None,
    }
}

/// Tells a string that is not refused with the fault that is marked in the line under it.
fn refuses_marked(told: &mut Told, alloc: Global, text: &[u8], line: &[u8]) {
    match mark_in(line) {
        Some((place, behind)) => match fault_in(behind) {
            Some(number) => refuses(told, alloc, text, number, place),
            None => told.failed(b"", text, b"no number behind the mark"),
        },
        None => told.failed(b"", text, b"no mark"),
    }
}

/// Tells the strings of a table that are not refused with the fault that is marked under each.
pub fn refuses_all(alloc: Global, table: &[u8]) -> Told {
    let mut told = Told::new(alloc);
    let mut unmarked = None;
    for line in table.split(|b| *b == b'\n') {
        match (unmarked, line) {
            (Some(text), mark) => {
                refuses_marked(&mut told, alloc, text, mark);
                unmarked = None;
            }
            (None, []) => {}
            (None, [b'#', ..]) => {}
            (None, text) => unmarked = Some(text),
        }
    }
    if unmarked.is_some() {
        told.failed(b"", b"", b"the last string has no mark");
    }
    told
}
