ghost use Rattle.std.specs.Prelude.{◌≡◌, ◌<◌, ◌≤◌, ◌^◌, ◌%◌, ◌+◌, length, IfOk};
ghost use Rattle.st_base.specs.Multiples.{aligned};
ghost use Rattle.aout_link.specs.Moves as spec;
ghost use Rattle.aout_link.specs.Moves.{totals_of, starts_of, all_moves};
ghost use Rattle.aout_link.specs.Answering.{AreSmall, wrapped_behind};

use crate::checked::Checked;
use st_base::{List, Memory, aligned as multiple_of_four};
use std::alloc::Global;

/// The bytes that text, data and bss of all objects take together, each part padded to a multiple of 4.
#[derive(Clone, Copy, Debug, Drop, PartialEq, Eq)]
pub struct Totals {
    pub text: u128,
    pub datum: u128,
    pub bss: u128,
}

/// Where text, data and bss begin: addresses modulo 2^32.
#[derive(Clone, Copy, Debug, Drop, PartialEq, Eq)]
pub struct Starts {
    pub text: u32,
    pub datum: u32,
    pub bss: u32,
}

/// How far text, data and bss of one object move, modulo 2^32.
#[derive(Clone, Copy, Debug, Drop, PartialEq, Eq)]
pub struct Moves {
    pub text: u32,
    pub datum: u32,
    pub bss: u32,
}

/// A size, padded to a multiple of 4.
pub fn padded(size: u64) -> u64
    requires { size < 2 ^ 32 }
    ensures value { result ≡ aligned size }
    ensures small { result ≤ 2 ^ 32 }
{
    multiple_of_four(size as u128) as u64
}

/// The remainder of a number modulo 2^32.
pub fn low(number: u128) -> u32
    ensures { result ≡ number % 2 ^ 32 }
{
    (number % 0x1_0000_0000) as u32
}

// The length of a segment.
fn size_of(bytes: &[u8]) -> u64
    requires { length bytes.now < 2 ^ 32 }
    ensures { result ≡ length bytes.now }
{
    bytes.len() as u64
}

// The padded sizes of one object.
fn sizes_of(object: &Checked) -> Totals
    ensures text { result.text ≡ spec.text_size object.now }
    ensures datum { result.datum ≡ spec.data_size object.now }
    ensures bss { result.bss ≡ spec.bss_size object.now }
    ensures text_low { result.text ≤ 2 ^ 32 }
    ensures datum_low { result.datum ≤ 2 ^ 32 }
    ensures bss_low { result.bss ≤ 2 ^ 32 }
{
    let parts = object.parts();
    Totals {
        text: padded(size_of(parts.text.bytes())) as u128,
        datum: padded(size_of(parts.data_part.bytes())) as u128,
        bss: padded(parts.bss as u64) as u128,
    }
}

/// The padded sizes of all objects together.
pub fn sum_sizes(objects: &[Checked]) -> Totals
    ensures value { result ≡ totals_of objects.now }
    ensures small { AreSmall result }
{
    let mut text = 0u128;
    let mut datum = 0u128;
    let mut bss = 0u128;
    for object in objects {
        let sizes = sizes_of(object);
        text += sizes.text;
        datum += sizes.datum;
        bss += sizes.bss;
    }
    Totals { text, datum, bss }
}

// Where the segments of the first object go.
fn first_starts(base: u32, totals: &Totals) -> Starts
    requires { base < 2 ^ 32 }
    ensures text { result.text ≡ base }
    ensures datum { result.datum ≡ (base + totals.now.text) % 2 ^ 32 }
    ensures bss { result.bss ≡ (base + totals.now.text + totals.now.datum) % 2 ^ 32 }
{
    let datum = base.wrapping_add(low(totals.text));
    Starts {
        text: base,
        datum,
        bss: datum.wrapping_add(low(totals.datum)),
    }
}

// How far the segments of an object move that are to begin at these addresses.
fn moves_to(object: &Checked, at: &Starts) -> Moves
    ensures { result ≡ spec.moves_between (spec.starts_before object.now) at.now }
{
    let parts = object.parts();
    let datum = parts.entry + size_of(parts.text.bytes()) as u32;
    let bss = datum + size_of(parts.data_part.bytes()) as u32;
    Moves {
        text: at.text.wrapping_sub(parts.entry),
        datum: at.datum.wrapping_sub(datum),
        bss: at.bss.wrapping_sub(bss),
    }
}

// Where the segments of the next object begin.
fn behind(object: &Checked, at: &Starts) -> Starts
    ensures { result ≡ wrapped_behind at.now object.now }
{
    let sizes = sizes_of(object);
    Starts {
        text: at.text.wrapping_add(low(sizes.text)),
        datum: at.datum.wrapping_add(low(sizes.datum)),
        bss: at.bss.wrapping_add(low(sizes.bss)),
    }
}

/// How far the segments of each object move, in order, where text begins at the base address. Out of memory is the only refusal.
pub fn find_moves(
    alloc: Global,
    objects: &[Checked],
    base: u32,
    totals: &Totals,
) -> Result<List<Moves>, Memory>
    requires { totals.now ≡ totals_of objects.now }
    ensures { IfOk result (λ all. all ≡ all_moves base objects.now) }
{
    let mut at = first_starts(base, totals);
    let mut all = List::new(alloc);
    for object in objects {
        all.push(moves_to(object, &at))?;
        at = behind(object, &at);
    }
    Ok(all)
}
