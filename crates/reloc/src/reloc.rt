/// `r_address`, four bytes: where the field begins, as an offset in its segment.
pub const ADDRESS: usize = 0;
/// `r_symbolnum`, three bytes: the entry's number where the relocation is external, else the kind of a segment.
pub const SYMBOL: usize = 4;
/// The flags, one byte.
pub const FLAGS: usize = 7;

/// A relocation of a field of text or data.
#[derive(Clone, Copy, Debug, Drop, PartialEq, Eq)]
pub struct Reloc {
    /// Where the field begins, as an offset in its segment.
    pub address: u32,
    /// The number of an entry where `external` is set, else that of a segment: `ABSOLUTE_SEGMENT`,
    /// `TEXT_SEGMENT`, `DATA_SEGMENT` or `BSS_SEGMENT`.
    pub symbol: u32,
    /// The field counts from the place of its segment.
    pub pcrel: bool,
    /// The field has 1, 2 or 4 bytes: 0, 1 or 2.
    pub length: u8,
    /// The symbol is the number of an entry.
    pub external: bool,
}
