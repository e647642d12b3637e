use st_base::Order;

/// The first word, four bytes: the magic in its low half, the machine word in its high half.
pub const FIRST_WORD: usize = 0;
/// `a_text`, four bytes: the size of text.
pub const TEXT: usize = 4;
/// `a_data`, four bytes: the size of data.
pub const DATA: usize = 8;
/// `a_bss`, four bytes: the size of bss.
pub const BSS: usize = 12;
/// `a_syms`, four bytes: the bytes of entries.
pub const SYMBOLS: usize = 16;
/// `a_entry`, four bytes: the entry word.
pub const ENTRY: usize = 20;
/// `a_trsize`, four bytes: the bytes of text relocations.
pub const TEXT_RELOCS: usize = 24;
/// `a_drsize`, four bytes: the bytes of data relocations.
pub const DATA_RELOCS: usize = 28;

/// The magic of the files that this project reads, OMAGIC.
pub const OMAGIC: u32 = 0x0107;
/// The machine word that is refused: with it the first word holds the magic in both byte orders.
pub const TWO_ORDERS: u16 = 0x0701;

/// The header of an a.out file. All sizes are in bytes.
#[derive(Clone, Copy, Debug, Drop, PartialEq, Eq)]
pub struct Header {
    /// The byte order of all numbers of the file.
    pub order: Order,
    /// The machine word, carried as it stands.
    pub machine: u16,
    /// The size of text.
    pub text: u32,
    /// The size of data.
    pub data_part: u32,
    /// The size of bss.
    pub bss: u32,
    /// The bytes of entries, a multiple of 12.
    pub symbols: u32,
    /// The entry word, which is the address of text.
    pub entry: u32,
    /// The bytes of text relocations, a multiple of 8.
    pub text_relocs: u32,
    /// The bytes of data relocations, a multiple of 8.
    pub data_relocs: u32,
}
