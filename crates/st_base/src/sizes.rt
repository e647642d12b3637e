// The sizes and limits of the files that these tools read and write; code, clauses and tests use the names. The sizes are those of
// a.out(5), the limits are this project's own.

/// The bytes of the word that a header begins with, and of the length word of a string table.
pub const WORD_SIZE: usize = 4;
/// The bytes of the header of a file.
pub const HEADER_SIZE: usize = 32;
/// The bytes of an entry of the symbol table.
pub const ENTRY_SIZE: usize = 12;
/// The bytes of a relocation.
pub const RELOC_SIZE: usize = 8;
/// The least kind of an entry that is a stab: such a kind has one of the bits 0xe0.
pub const LEAST_STAB: u8 = 0x20;
/// The most bytes of a file, of an image and of a string table, and of all inputs of one run together.
pub const FILE_LIMIT: u64 = 134_217_728;
/// The most bytes of one assembly source.
pub const SOURCE_LIMIT: u64 = 16_777_216;
/// The highest address.
pub const GREATEST_ADDRESS: u64 = 4_294_967_295;
