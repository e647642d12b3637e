ghost use Rattle.std.specs.Prelude.{◌≡◌, ◌↔◌};
ghost use Rattle.reloc.specs.Relocs as spec;
ghost use Rattle.reloc.specs.Relocs.{Spells, HasLength};

use crate::column::{Column, flag_column};
use crate::reloc::{ADDRESS, FLAGS, Reloc, SYMBOL};
use nlist_codec::{ABSOLUTE_SEGMENT, BSS_SEGMENT, DATA_SEGMENT, TEXT_SEGMENT};
use st_base::{FLAG, Fault, LENGTH8, Layout, RELOC_SIZE, SEGMENT};

fn has_flag(flags: u8, mask: u8) -> bool
    ensures { result ≡ spec.has_flag flags mask }
{
    flags & mask != 0
}

fn length_in(column: &Column, flags: u8) -> u8
    requires { HasLength column.now }
    ensures { result ≡ spec.length_in column.now flags }
{
    (flags & column.length) / column.length_unit
}

fn has_other_flags(column: &Column, flags: u8) -> bool
    ensures { result ≡ spec.has_other_flags column.now flags }
{
    has_flag(flags, column.baserel)
        || has_flag(flags, column.jmptable)
        || has_flag(flags, column.relative)
        || has_flag(flags, column.copy)
}

/// Whether a number is that of a segment: N_ABS, N_TEXT, N_DATA or N_BSS.
fn is_segment(symbol: u32) -> bool
    ensures { result ≡ spec.is_segment symbol }
{
    symbol == u32::from(ABSOLUTE_SEGMENT)
        || symbol == u32::from(TEXT_SEGMENT)
        || symbol == u32::from(DATA_SEGMENT)
        || symbol == u32::from(BSS_SEGMENT)
}

fn read_fields<const BIG: bool>(bytes: &[u8; RELOC_SIZE], column: &Column, flags: u8) -> Reloc
    requires { HasLength column.now }
    ensures { result ≡ spec.fields_in BIG bytes.now column.now flags }
{
    Reloc {
        address: Layout::<BIG, RELOC_SIZE>::get_u32(bytes, ADDRESS),
        symbol: Layout::<BIG, RELOC_SIZE>::get_u24(bytes, SYMBOL),
        pcrel: has_flag(flags, column.pcrel),
        length: length_in(column, flags),
        external: has_flag(flags, column.external),
    }
}

fn read_checked<const BIG: bool>(bytes: &[u8; RELOC_SIZE]) -> Result<Reloc, Fault>
    ensures { result ≡ spec.read BIG bytes.now }
{
    let column = flag_column::<BIG>();
    let flags = Layout::<BIG, RELOC_SIZE>::get_u8(bytes, FLAGS);
    let reloc = read_fields::<BIG>(bytes, &column, flags);
    if reloc.length == 3 {
        return Err(Fault::at(LENGTH8, 0));
    }
    if has_other_flags(&column, flags) {
        return Err(Fault::at(FLAG, 0));
    }
    if !reloc.external && !is_segment(reloc.symbol) {
        return Err(Fault::at(SEGMENT, 0));
    }
    Ok(reloc)
}

/// Reads a relocation whose numbers have their most significant byte first where `BIG` holds, else last; its flags are in the
/// column of that order.
///
/// Refused at the first of these, with place 0: `LENGTH8`, `FLAG`, `SEGMENT`. Takes no memory. After a.out(5),
/// `struct relocation_info`; the columns are those of GNU's `struct reloc_std_external`.
pub fn read_reloc<const BIG: bool>(bytes: &[u8; RELOC_SIZE]) -> Result<Reloc, Fault>
    ensures first_fault { result ≡ spec.read BIG bytes.now }
    ensures spelled { (reloc : Reloc) → (result ≡ Ok reloc) ↔ Spells BIG reloc bytes.now }
{
    read_checked::<BIG>(bytes)
}
