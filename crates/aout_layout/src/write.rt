ghost use Rattle.std.specs.Prelude.{◌≡◌, ◌↔◌, IsTrue, ℕ, List, length};
ghost use Rattle.st_base.specs.Number.{IsBytes};
ghost use Rattle.aout_layout.specs.Headers.{HeaderFits, NumbersFit, Spells, header_bytes, fields_bytes};
ghost use Rattle.st_base.specs.declared.sizes.TheConstants.{HEADER_SIZE};

use crate::header::{
    BSS, DATA, DATA_RELOCS, ENTRY, FIRST_WORD, Header, OMAGIC, SYMBOLS, TEXT, TEXT_RELOCS,
    TWO_ORDERS,
};
use crate::read::check_sizes;
use st_base::{HEADER_SIZE, Layout, Order};

/// Whether a header can be written and read again: its machine word is not 0x0701, its bytes of entries and of relocations
/// are whole, and its addresses are at most 4,294,967,295.
pub fn header_fits(header: &Header) -> bool
    ensures { IsTrue result ↔ HeaderFits header.now }
{
    header.machine != TWO_ORDERS && check_sizes(header).is_ok()
}

fn write_fields<const BIG: bool>(header: &Header) -> [u8; HEADER_SIZE]
    ensures bytes { result ≡ fields_bytes BIG header.now }
    ensures numbers { NumbersFit header.now }
{
    let mut bytes = [0; HEADER_SIZE];
    Layout::<BIG, HEADER_SIZE>::put_u32(
        &mut bytes,
        FIRST_WORD,
        u32::from(header.machine) * 65536 + OMAGIC,
    );
    Layout::<BIG, HEADER_SIZE>::put_u32(&mut bytes, TEXT, header.text);
    Layout::<BIG, HEADER_SIZE>::put_u32(&mut bytes, DATA, header.data_part);
    Layout::<BIG, HEADER_SIZE>::put_u32(&mut bytes, BSS, header.bss);
    Layout::<BIG, HEADER_SIZE>::put_u32(&mut bytes, SYMBOLS, header.symbols);
    Layout::<BIG, HEADER_SIZE>::put_u32(&mut bytes, ENTRY, header.entry);
    Layout::<BIG, HEADER_SIZE>::put_u32(&mut bytes, TEXT_RELOCS, header.text_relocs);
    Layout::<BIG, HEADER_SIZE>::put_u32(&mut bytes, DATA_RELOCS, header.data_relocs);
    bytes
}

/// Writes a header in its byte order. Takes no memory. After a.out(5), `struct exec`.
pub fn write_header(header: &Header) -> [u8; HEADER_SIZE]
    requires { HeaderFits header.now }
    ensures bytes { result ≡ header_bytes header.now }
    ensures read_again { Spells header.now result }
{
    match header.order {
        Order::Little => write_fields::<false>(header),
        Order::Big => write_fields::<true>(header),
    }
}

/// Reading and writing a header are inverse to each other: the bytes that are written spell the header and no other, and the
/// bytes that spell a header are the ones that are written.
pub fn header_laws()
    ensures write_then_read { (header : Header) → NumbersFit header → HeaderFits header → Spells header (header_bytes header) }
    ensures read_then_write { (header : Header) (bytes : List ℕ) → IsBytes bytes → length bytes ≡ HEADER_SIZE → Spells header bytes
        → header_bytes header ≡ bytes }
{}
