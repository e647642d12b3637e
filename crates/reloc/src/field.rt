ghost use Rattle.std.specs.Prelude.{◌≡◌, ◌+◌, ◌*◌, ◌^◌, ◌<◌, ◌≤◌, length, OnOk, OnErr};
ghost use Rattle.st_base.specs.Faults.{checked};
ghost use Rattle.st_base.specs.Number.{number_at, with_number_at};
ghost use Rattle.reloc.specs.Sums as spec;
ghost use Rattle.reloc.specs.Sums.{apply_checks, applied, bytes_in, bits_in};

use crate::reloc::Reloc;
use st_base::{Fault, Layout, OUTSIDE, OVERFLOW};

fn size_of(length: u8) -> usize
    requires { length ≤ 2 }
    ensures { result ≡ bytes_in length }
{
    1 << length
}

fn read_field<const BIG: bool>(segment: &[u8], at: usize, len: u8) -> u32
    requires known { len ≤ 2 }
    requires within { at + bytes_in len ≤ length segment.now }
    ensures value { result ≡ number_at BIG segment.now at (bytes_in len) }
    ensures fits { result < 2 ^ bits_in len }
{
    match len {
        0 => {
            let mut field = [0; 1];
            field.copy_from_slice(&segment[at..at + 1]);
            u32::from(Layout::<BIG, 1>::get_u8(&field, 0))
        }
        1 => {
            let mut field = [0; 2];
            field.copy_from_slice(&segment[at..at + 2]);
            u32::from(Layout::<BIG, 2>::get_u16(&field, 0))
        }
        _ => {
            let mut field = [0; 4];
            field.copy_from_slice(&segment[at..at + 4]);
            Layout::<BIG, 4>::get_u32(&field, 0)
        }
    }
}

fn write_field<const BIG: bool>(segment: &mut [u8], at: usize, len: u8, value: u32)
    requires known { len ≤ 2 }
    requires within { at + bytes_in len ≤ length segment.old }
    requires fits { value < 2 ^ bits_in len }
    ensures { segment.new ≡ with_number_at BIG segment.old at (bytes_in len) value }
{
    match len {
        0 => {
            let mut field = [0; 1];
            Layout::<BIG, 1>::put_u8(&mut field, 0, value as u8);
            segment[at..at + 1].copy_from_slice(&field);
        }
        1 => {
            let mut field = [0; 2];
            Layout::<BIG, 2>::put_u16(&mut field, 0, value as u16);
            segment[at..at + 2].copy_from_slice(&field);
        }
        _ => {
            let mut field = [0; 4];
            Layout::<BIG, 4>::put_u32(&mut field, 0, value);
            segment[at..at + 4].copy_from_slice(&field);
        }
    }
}

fn sum(len: u8, old: u32, add: u32) -> u32
    requires known { len ≤ 2 }
    requires fits { old < 2 ^ bits_in len }
    ensures { result ≡ spec.sum (bits_in len) old add }
{
    let extended = match len {
        0 => if old < 0x80 { old } else { old + 0xffff_ff00 },
        1 => if old < 0x8000 { old } else { old + 0xffff_0000 },
        _ => old,
    };
    extended.wrapping_add(add)
}

fn sum_fits(len: u8, sum: u32) -> bool
    requires { len ≤ 2 }
    ensures { result ≡ spec.sum_fits (bits_in len) sum }
{
    match len {
        0 => sum < 0x100 || sum >= 0xffff_ff80,
        1 => sum < 0x1_0000 || sum >= 0xffff_8000,
        _ => true,
    }
}

fn low_bits(len: u8, sum: u32) -> u32
    requires { len ≤ 2 }
    ensures { result ≡ spec.low_bits (bits_in len) sum }
{
    match len {
        0 => sum % 0x100,
        1 => sum % 0x1_0000,
        _ => sum,
    }
}

/// Adds an amount to the field of a relocation, a number with its most significant byte first where `BIG` holds, else last.
///
/// A field of one or two bytes is first extended by its sign; the sum is taken modulo 2^32, and its low bits are stored. Refused
/// at the first of these, with nothing changed and the address as place: `OUTSIDE` where the field passes the segment's end, and
/// `OVERFLOW` where the sum is neither below 2^w nor at least 2^32 - 2^(w-1), for a field of w bits. Takes no memory.
pub fn apply<const BIG: bool>(segment: &mut [u8], reloc: &Reloc, add: u32) -> Result<(), Fault>
    requires { reloc.now.length ≤ 2 }
    ensures first_fault { result ≡ checked (apply_checks BIG segment.old reloc.now add) tt }
    ensures field { OnOk result (segment.new ≡ applied BIG segment.old reloc.now add) }
    ensures unchanged { OnErr result (segment.new ≡ segment.old) }
{
    let at = reloc.address as usize;
    if segment.len() < at + size_of(reloc.length) {
        return Err(Fault::at(OUTSIDE, u64::from(reloc.address)));
    }
    let old = read_field::<BIG>(segment, at, reloc.length);
    let sum = sum(reloc.length, old, add);
    if !sum_fits(reloc.length, sum) {
        return Err(Fault::at(OVERFLOW, u64::from(reloc.address)));
    }
    write_field::<BIG>(segment, at, reloc.length, low_bits(reloc.length, sum));
    Ok(())
}
