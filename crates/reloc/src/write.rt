ghost use Rattle.std.specs.Prelude.{◌≡◌, ◌≤◌, ◌<◌, ◌^◌, ℕ, List, length};
ghost use Rattle.st_base.specs.Number.{IsBytes};
ghost use Rattle.reloc.specs.Relocs as spec;
ghost use Rattle.reloc.specs.Relocs.{HasLength, RelocFits, Spells, reloc_bytes};
ghost use Rattle.st_base.specs.declared.sizes.TheConstants.{RELOC_SIZE};

use crate::column::{Column, flag_column};
use crate::reloc::{ADDRESS, FLAGS, Reloc, SYMBOL};
use st_base::{Layout, RELOC_SIZE};

fn flag_bits(flag: bool, mask: u8) -> u8
    ensures { result ≡ spec.flag_bits flag mask }
{
    if flag { mask } else { 0 }
}

fn flags_of(column: &Column, reloc: &Reloc) -> u8
    requires column { HasLength column.now }
    requires length { reloc.now.length ≤ 2 }
    ensures { result ≡ spec.flags_of column.now reloc.now }
{
    flag_bits(reloc.pcrel, column.pcrel)
        | (reloc.length * column.length_unit)
        | flag_bits(reloc.external, column.external)
}

fn write_fields<const BIG: bool>(reloc: &Reloc) -> [u8; RELOC_SIZE]
    requires { RelocFits reloc.now }
    ensures bytes { result ≡ reloc_bytes BIG reloc.now }
    ensures address { reloc.now.address < 2 ^ 32 }
{
    let column = flag_column::<BIG>();
    let mut bytes = [0; RELOC_SIZE];
    Layout::<BIG, RELOC_SIZE>::put_u32(&mut bytes, ADDRESS, reloc.address);
    Layout::<BIG, RELOC_SIZE>::put_u24(&mut bytes, SYMBOL, reloc.symbol);
    Layout::<BIG, RELOC_SIZE>::put_u8(&mut bytes, FLAGS, flags_of(&column, reloc));
    bytes
}

/// Writes a relocation whose numbers have their most significant byte first where `BIG` holds, else last; its flags are in
/// the column of that order. Takes no memory. After a.out(5), `struct relocation_info`.
pub fn write_reloc<const BIG: bool>(reloc: &Reloc) -> [u8; RELOC_SIZE]
    requires { RelocFits reloc.now }
    ensures bytes { result ≡ reloc_bytes BIG reloc.now }
    ensures read_again { Spells BIG reloc.now result }
{
    write_fields::<BIG>(reloc)
}

/// Reading and writing a relocation are inverse to each other: the bytes that are written spell the relocation, and the bytes
/// that spell it are the ones that are written.
pub fn reloc_laws<const BIG: bool>()
    ensures write_then_read { (reloc : Reloc) → reloc.address < 2 ^ 32 → RelocFits reloc → Spells BIG reloc (reloc_bytes BIG reloc) }
    ensures read_then_write { (reloc : Reloc) (bytes : List ℕ) → IsBytes bytes → length bytes ≡ RELOC_SIZE → Spells BIG reloc bytes
        → reloc_bytes BIG reloc ≡ bytes }
{}
