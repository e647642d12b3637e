ghost use Rattle.std.specs.Prelude.{◌≡◌, ◌<◌, ◌≤◌, ◌↔◌, length, drop, Some, IsOk, IsErrOf, IfOk, IfErr, IfSome, IsSome, position};
ghost use Rattle.std.specs.Option.{option_copied};
ghost use Rattle.st_base.specs.ByteOrder.{is_big};
ghost use Rattle.st_base.specs.Faults.{fault_at};
ghost use Rattle.strtab.specs.StringTable as spec;

use st_base::{Fault, INSIDE, LENGTH, NO_END, Order, PAST, WORD_SIZE, first_word};

/// Checks that the first word of a string table, in this byte order, is the table's length in bytes, the
/// word's own four included.
///
/// Refused, at place 0, where the table has fewer than four bytes or another length. Takes no memory.
/// After a.out(5).
pub fn check_table(order: Order, table: &[u8]) -> Result<(), Fault>
    ensures counted { IsOk result ↔ spec.HasOwnLength (is_big order) table.now }
    ensures wrong { IfErr result (λ why. why ≡ fault_at LENGTH 0) }
{
    match first_word(order, table) {
        Some(word) if word as usize == table.len() => Ok(()),
        _ => Err(Fault::at(LENGTH, 0)),
    }
}

fn zero_at(bytes: &[u8]) -> Option<usize>
    ensures value { result ≡ position spec.is_zero bytes.now }
    ensures within { IfSome result (λ at. at < length bytes.now) }
{
    bytes.iter().position(|b| *b == 0)
}

fn before_zero(bytes: &[u8]) -> Option<&[u8]>
    ensures { option_copied result ≡ spec.before_zero bytes.now }
{
    let at = zero_at(bytes)?;
    Some(&bytes[..at])
}

/// The name at offset `strx` of a string table, without its zero byte; empty for offset 0.
///
/// `table` is the whole table with its length word, and `strx` counts its bytes from 0. Refused inside the
/// length word, past the table, and where no zero byte follows; the place is `strx`. Takes no memory.
/// After a.out(5).
pub fn name_at(table: &[u8], strx: u32) -> Result<&[u8], Fault>
    ensures found { IsOk result ↔ IsSome (spec.name_in table.now strx) }
    ensures name { IfOk result (λ name. spec.name_in table.now strx ≡ Some name.now) }
    ensures inside { IsErrOf result (fault_at INSIDE strx) ↔ ((0 < strx) × (strx < 4)) }
    ensures past { IsErrOf result (fault_at PAST strx) ↔ ((4 ≤ strx) × (length table.now ≤ strx)) }
    ensures no_end { IsErrOf result (fault_at NO_END strx)
        ↔ ((4 ≤ strx) × (strx < length table.now) × spec.HasNoZero (drop strx table.now)) }
{
    let at = strx as usize;
    if at == 0 {
        return Ok(&table[..0]);
    }
    if at < WORD_SIZE {
        return Err(Fault::at(INSIDE, u64::from(strx)));
    }
    if table.len() <= at {
        return Err(Fault::at(PAST, u64::from(strx)));
    }
    match before_zero(&table[at..]) {
        Some(name) => Ok(name),
        None => Err(Fault::at(NO_END, u64::from(strx))),
    }
}
