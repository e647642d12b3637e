ghost use Rattle.std.specs.Prelude.{◌≡◌, ◌↔◌, IsTrue};
ghost use Rattle.st_base.specs.Faults.{checked};
ghost use Rattle.aout_layout.specs.Headers as spec;
ghost use Rattle.aout_layout.specs.Headers.{Spells};

use crate::header::{
    BSS, DATA, DATA_RELOCS, ENTRY, FIRST_WORD, Header, OMAGIC, SYMBOLS, TEXT, TEXT_RELOCS,
};
use st_base::{
    ADDRESS, ENTRY_SIZE, Fault, GREATEST_ADDRESS, HEADER_SIZE, Layout, MACHINE, MAGIC, Order,
    RELOC_BYTES, RELOC_SIZE, SYMBOL_BYTES,
};

fn has_magic<const BIG: bool>(bytes: &[u8; HEADER_SIZE]) -> bool
    ensures { result ≡ spec.has_magic BIG bytes.now }
{
    Layout::<BIG, HEADER_SIZE>::get_u32(bytes, FIRST_WORD) % 65536 == OMAGIC
}

fn read_fields<const BIG: bool>(bytes: &[u8; HEADER_SIZE]) -> Header
    ensures { result ≡ spec.header_of BIG bytes.now }
{
    Header {
        order: if BIG { Order::Big } else { Order::Little },
        machine: (Layout::<BIG, HEADER_SIZE>::get_u32(bytes, FIRST_WORD) / 65536) as u16,
        text: Layout::<BIG, HEADER_SIZE>::get_u32(bytes, TEXT),
        data_part: Layout::<BIG, HEADER_SIZE>::get_u32(bytes, DATA),
        bss: Layout::<BIG, HEADER_SIZE>::get_u32(bytes, BSS),
        symbols: Layout::<BIG, HEADER_SIZE>::get_u32(bytes, SYMBOLS),
        entry: Layout::<BIG, HEADER_SIZE>::get_u32(bytes, ENTRY),
        text_relocs: Layout::<BIG, HEADER_SIZE>::get_u32(bytes, TEXT_RELOCS),
        data_relocs: Layout::<BIG, HEADER_SIZE>::get_u32(bytes, DATA_RELOCS),
    }
}

/// Whether the addresses of text, data and bss are at most 4,294,967,295.
pub fn addresses_fit(header: &Header) -> bool
    ensures { result ≡ spec.addresses_fit header.now }
{
    let end = u64::from(header.entry)
        + u64::from(header.text)
        + u64::from(header.data_part)
        + u64::from(header.bss);
    end <= GREATEST_ADDRESS
}

/// Checks the sizes of a header in their order.
pub fn check_sizes(header: &Header) -> Result<(), Fault>
    ensures { result ≡ checked (spec.size_checks header.now) tt }
{
    if header.symbols as usize % ENTRY_SIZE != 0 {
        return Err(Fault::at(SYMBOL_BYTES, SYMBOLS as u64));
    }
    if header.text_relocs as usize % RELOC_SIZE != 0 {
        return Err(Fault::at(RELOC_BYTES, TEXT_RELOCS as u64));
    }
    if header.data_relocs as usize % RELOC_SIZE != 0 {
        return Err(Fault::at(RELOC_BYTES, DATA_RELOCS as u64));
    }
    if !addresses_fit(header) {
        return Err(Fault::at(ADDRESS, ENTRY as u64));
    }
    Ok(())
}

fn read_checked(bytes: &[u8; HEADER_SIZE]) -> Result<Header, Fault>
    ensures { result ≡ spec.read bytes.now }
{
    let little = has_magic::<false>(bytes);
    let big = has_magic::<true>(bytes);
    if !little && !big {
        return Err(Fault::at(MAGIC, FIRST_WORD as u64));
    }
    if little && big {
        return Err(Fault::at(MACHINE, FIRST_WORD as u64));
    }
    let header = if big {
        read_fields::<true>(bytes)
    } else {
        read_fields::<false>(bytes)
    };
    check_sizes(&header)?;
    Ok(header)
}

/// Reads the header of a file. The byte order is the one in which the low half of the first word is 0x0107.
///
/// Refused at the first of these: `MAGIC` where it is so in neither order, `MACHINE` where it is so in both, `SYMBOL_BYTES`,
/// `RELOC_BYTES` for text and then for data, `ADDRESS`. Takes no memory. After a.out(5), `struct exec`.
pub fn read_header(bytes: &[u8; HEADER_SIZE]) -> Result<Header, Fault>
    ensures first_fault { result ≡ spec.read bytes.now }
    ensures spelled { (header : Header) → (result ≡ Ok header) ↔ Spells header bytes.now }
{
    read_checked(bytes)
}
