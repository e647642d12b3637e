ghost use Rattle.std.specs.Prelude.{◌≡◌};
ghost use Rattle.st_base.specs.Faults.{fault_at};

use std::alloc::{AllocError, AllocFailed};

// The numbers of all faults of these tools, also of those to come, so that one number never has two meanings. Each line gives the
// cause, then the place and within of the fault; where no within is given it is 0.

/// In neither byte order is the low half of the file's first word the magic 0x0107. Place 0.
pub const MAGIC: u16 = 1;
/// In both byte orders the low half of the first word is the magic, so that the order is not known. Place 0.
pub const MACHINE: u16 = 2;
/// The header's bytes of entries are no multiple of an entry's 12. Place 16.
pub const SYMBOL_BYTES: u16 = 3;
/// The header's bytes of relocations are no multiple of a relocation's 8. Place 24 for text, else 28 for data.
pub const RELOC_BYTES: u16 = 4;
/// The file ends too early. The place is the file's length.
pub const TRUNCATED: u16 = 5;
/// Bytes follow the string table. The place is the first of them.
pub const TRAILING: u16 = 6;
/// The entry word and the sizes of text, data and bss together pass 4,294,967,295. Place 20.
pub const ADDRESS: u16 = 7;
/// The length word of the string table is wrong. The place is that of the table in its file, 0 for a table by itself.
pub const LENGTH: u16 = 10;
/// A name begins inside the length word of the string table. The place is the entry's number, the offset for a table by itself.
pub const INSIDE: u16 = 11;
/// A name begins past the string table. The place is the entry's number, the offset for a table by itself.
pub const PAST: u16 = 12;
/// No zero byte ends a name. The place is the entry's number, the offset for a table by itself.
pub const NO_END: u16 = 13;
/// The length bits of a relocation are 3, a field of eight bytes. The place is the relocation's number, text first; 0 for one
/// by itself.
pub const LENGTH8: u16 = 20;
/// One of the flags baserel, jmptable, relative or copy of a relocation is set. The place is as for `LENGTH8`.
pub const FLAG: u16 = 21;
/// A relocation is not external, and its symbol is not 2, 4, 6 or 8. The place is as for `LENGTH8`.
pub const SEGMENT: u16 = 22;
/// The field of a relocation passes its segment's end. The place is the object's number, within the relocation's, text first;
/// for one segment by itself the place is the relocation's address.
pub const OUTSIDE: u16 = 23;
/// The external symbol of a relocation is no entry, a stab, or of kind 0. The place is the object's number, within the
/// relocation's, text first.
pub const SYMBOL: u16 = 24;
/// The sum of a relocation does not fit its field. Place and within are as for `OUTSIDE`.
pub const OVERFLOW: u16 = 25;
/// The kind of an entry is not accepted. The place is the entry's number.
pub const KIND: u16 = 30;
/// From this byte on no stab string goes on. The place is the entry's number and within the place in its string; for a string
/// by itself the place is that in the string.
pub const BYTE: u16 = 40;
/// A stab string ends before what it spells. Place and within are as for `BYTE`.
pub const END: u16 = 41;
/// A type that begins here is more than 100 deep. Place and within are as for `BYTE`.
pub const DEEP: u16 = 42;
/// A stab stands outside every unit. The place is the entry's number.
pub const NO_UNIT: u16 = 50;
/// A stab string that ends in `\` is not continued by the next entry. The place is the number of the entry that ends so.
pub const CONTINUATION: u16 = 51;
/// A header range is not closed. The place is the number of the entry that begins it.
pub const OPEN_HEADER: u16 = 52;
/// A header range is closed that is not open. The place is the entry's number.
pub const CLOSED_HEADER: u16 = 53;
/// The brackets of blocks do not match. The place is the entry's number; for a block that is not closed, of the entry that
/// begins it.
pub const BRACKETS: u16 = 54;
/// A mark of an excluded header stands in an object. The place is the entry's number.
pub const EXCLUDED: u16 = 55;
/// A header passes the limit of headers. The place is the number of its entry.
pub const HEADERS: u16 = 57;
/// A stab string that is continued is longer than 1,048,576 bytes. The place is the number of its first entry.
pub const LONG: u16 = 58;
/// The words of a query do not parse. The place is that of the first word that is wrong, missing or too many.
pub const QUERY: u16 = 60;
/// A line of an assembly source does not parse. The place is the line's number.
pub const LINE_SYNTAX: u16 = 70;
/// A value of an assembly source is out of its range. The place is the line's number.
pub const LINE_RANGE: u16 = 71;
/// A name of an assembly source is not defined. The place is the line's number.
pub const LINE_UNDEFINED: u16 = 72;
/// A name of an assembly source is defined twice. The place is the line's number.
pub const LINE_TWICE: u16 = 73;
/// A value of an assembly source mixes what does not go together. The place is the line's number.
pub const LINE_MIXED: u16 = 74;
/// A C source does not parse. The place is the line's number, within the file's.
pub const C_SYNTAX: u16 = 80;
/// A name of a C source is not declared. Place and within are as for `C_SYNTAX`.
pub const C_UNKNOWN: u16 = 81;
/// A name of a C source is declared again. Place and within are as for `C_SYNTAX`.
pub const C_AGAIN: u16 = 82;
/// A C source includes itself. Place and within are as for `C_SYNTAX`.
pub const C_CYCLE: u16 = 83;
/// A type of a C source is not complete where it must be. Place and within are as for `C_SYNTAX`.
pub const C_INCOMPLETE: u16 = 84;
/// A size of a C source is too large. Place and within are as for `C_SYNTAX`.
pub const C_LARGE: u16 = 85;
/// An object's byte order is not that of the first object. The place is the object's number.
pub const ORDER_MIX: u16 = 90;
/// An object's machine word is not that of the first object. The place is the object's number.
pub const MACHINE_MIX: u16 = 91;
/// A name is nowhere defined. The place is the object's number, within the entry's.
pub const UNDEFINED: u16 = 92;
/// A name is defined a second time. The place is the object's number, within the entry's.
pub const TWICE: u16 = 93;
/// A size passes its limit. The place is the limit.
pub const TOO_LARGE: u16 = 94;
/// There are no objects to link.
pub const EMPTY: u16 = 95;
/// A mark of an excluded header stands for no header. The place is the entry's number.
pub const NO_HEADER: u16 = 100;
/// A mark of an excluded header stands for more than one header. The place is the entry's number.
pub const AMBIGUOUS: u16 = 101;

/// Out of memory.
#[derive(Clone, Copy, Debug, Drop, PartialEq, Eq)]
pub struct Memory;

impl From<AllocError> for Memory {
    fn from(_error: AllocError) -> Memory {
        Memory
    }
}

impl<T: Drop> From<AllocFailed<T>> for Memory {
    fn from(_error: AllocFailed<T>) -> Memory {
        Memory
    }
}

/// What is wrong with an input: the fault's number, its place counted from 0, and where it lies within
/// that place, which is 0 where a place says all.
#[derive(Clone, Copy, Debug, Drop, PartialEq, Eq)]
pub struct Fault {
    pub number: u16,
    pub place: u64,
    pub within: u64,
}

impl Fault {
    /// The fault with this number and place whose within is 0. Takes no memory.
    pub fn at(number: u16, place: u64) -> Fault
        ensures { result ≡ fault_at number place }
    {
        Fault {
            number,
            place,
            within: 0,
        }
    }
}

/// Why a call refuses: a fault of its input, or out of memory.
#[derive(Clone, Copy, Debug, Drop, PartialEq, Eq)]
pub enum Refused {
    At(Fault),
    Memory,
}

impl From<Memory> for Refused {
    ghost use Rattle.std.specs.Prelude.{◌≡◌};
    ghost use Rattle.st_base.specs.declared.fault.Refused.TheVariants as refused;

    ghost from_gives = { λ _ e. e ≡ refused.Memory };

    fn from(_memory: Memory) -> Refused {
        Refused::Memory
    }
}

impl From<AllocError> for Refused {
    ghost use Rattle.std.specs.Prelude.{◌≡◌};
    ghost use Rattle.st_base.specs.declared.fault.Refused.TheVariants as refused;

    ghost from_gives = { λ _ e. e ≡ refused.Memory };

    fn from(_error: AllocError) -> Refused {
        Refused::Memory
    }
}

impl From<Fault> for Refused {
    ghost use Rattle.std.specs.Prelude.{◌≡◌};
    ghost use Rattle.st_base.specs.declared.fault.Refused.TheVariants as refused;

    ghost from_gives = { λ fault e. e ≡ refused.At fault };

    fn from(fault: Fault) -> Refused {
        Refused::At(fault)
    }
}
