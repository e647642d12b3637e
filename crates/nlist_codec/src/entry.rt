ghost use Rattle.std.specs.Prelude.{◌≡◌, ℕ, List, length};
ghost use Rattle.st_base.specs.Number.{IsBytes};
ghost use Rattle.st_base.specs.declared.sizes.TheConstants.{ENTRY_SIZE};
ghost use Rattle.nlist_codec.specs.Entries.{EntryFits, entry_of, entry_bytes};

use st_base::{ENTRY_SIZE, Layout};

/// `n_strx`, four bytes: the offset of the name in the string table, 0 for none.
const STRX: usize = 0;
/// `n_type`, one byte.
const KIND: usize = 4;
/// `n_other`, one byte.
const OTHER: usize = 5;
/// `n_desc`, two bytes.
const DESC: usize = 6;
/// `n_value`, four bytes.
const VALUE: usize = 8;

/// An entry of the symbol table as it stands in the file, its name as an offset into the string table.
#[derive(Clone, Copy, Debug, Drop, PartialEq, Eq)]
pub struct Entry {
    pub strx: u32,
    pub kind: u8,
    pub other: u8,
    pub desc: u16,
    pub value: u32,
}

/// Reads an entry whose numbers have their most significant byte first where `BIG` holds, else last.
/// Takes no memory, and refuses no bytes. After a.out(5), `struct nlist`.
pub fn read_entry<const BIG: bool>(bytes: &[u8; ENTRY_SIZE]) -> Entry
    ensures { result ≡ entry_of BIG bytes.now }
{
    Entry {
        strx: Layout::<BIG, ENTRY_SIZE>::get_u32(bytes, STRX),
        kind: Layout::<BIG, ENTRY_SIZE>::get_u8(bytes, KIND),
        other: Layout::<BIG, ENTRY_SIZE>::get_u8(bytes, OTHER),
        desc: Layout::<BIG, ENTRY_SIZE>::get_u16(bytes, DESC),
        value: Layout::<BIG, ENTRY_SIZE>::get_u32(bytes, VALUE),
    }
}

/// Writes an entry whose numbers have their most significant byte first where `BIG` holds, else last. Takes no memory.
/// After a.out(5), `struct nlist`.
pub fn write_entry<const BIG: bool>(entry: &Entry) -> [u8; ENTRY_SIZE]
    ensures bytes { result ≡ entry_bytes BIG entry.now }
    ensures read_again { entry_of BIG result ≡ entry.now }
{
    let mut bytes = [0; ENTRY_SIZE];
    Layout::<BIG, ENTRY_SIZE>::put_u32(&mut bytes, STRX, entry.strx);
    Layout::<BIG, ENTRY_SIZE>::put_u8(&mut bytes, KIND, entry.kind);
    Layout::<BIG, ENTRY_SIZE>::put_u8(&mut bytes, OTHER, entry.other);
    Layout::<BIG, ENTRY_SIZE>::put_u16(&mut bytes, DESC, entry.desc);
    Layout::<BIG, ENTRY_SIZE>::put_u32(&mut bytes, VALUE, entry.value);
    bytes
}

/// Reading and writing an entry are inverse to each other: what was written is read as the entry, and what was read is
/// written as the same twelve bytes.
pub fn entry_laws<const BIG: bool>()
    ensures write_then_read { (entry : Entry) → EntryFits entry → entry_of BIG (entry_bytes BIG entry) ≡ entry }
    ensures read_then_write { (bytes : List ℕ) → IsBytes bytes → length bytes ≡ ENTRY_SIZE → entry_bytes BIG (entry_of BIG bytes) ≡ bytes }
{}
