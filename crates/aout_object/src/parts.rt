use reloc::Reloc;
use st_base::{List, Order, Text};

/// The parts of an object without its symbol table.
#[derive(Debug, Drop)]
pub struct Parts {
    /// The byte order of all numbers of the file.
    pub order: Order,
    /// The machine word, carried as it stands.
    pub machine: u16,
    /// The size of bss in bytes.
    pub bss: u32,
    /// The entry word, which is the address of text.
    pub entry: u32,
    /// The bytes of text.
    pub text: Text,
    /// The bytes of data.
    pub data_part: Text,
    /// The relocations of text, in order.
    pub text_relocs: List<Reloc>,
    /// The relocations of data, in order.
    pub data_relocs: List<Reloc>,
}
