ghost use Rattle.std.specs.Prelude.{◌≡◌};
ghost use Rattle.reloc.specs.Relocs.{column_of, HasLength};

/// Which bits of the flag byte of a relocation hold each flag, in one byte order.
#[derive(Clone, Copy, Debug, Drop, PartialEq, Eq)]
pub struct Column {
    pub pcrel: u8,
    pub length: u8,
    /// The lower of the two bits of the length.
    pub length_unit: u8,
    pub external: u8,
    pub baserel: u8,
    pub jmptable: u8,
    pub relative: u8,
    pub copy: u8,
}

const LITTLE: Column = Column {
    pcrel: 0x01,
    length: 0x06,
    length_unit: 0x02,
    external: 0x08,
    baserel: 0x10,
    jmptable: 0x20,
    relative: 0x40,
    copy: 0x80,
};

const BIG_FIRST: Column = Column {
    pcrel: 0x80,
    length: 0x60,
    length_unit: 0x20,
    external: 0x10,
    baserel: 0x08,
    jmptable: 0x04,
    relative: 0x02,
    copy: 0x01,
};

/// The column of a byte order.
pub fn flag_column<const BIG: bool>() -> Column
    ensures value { result ≡ column_of BIG }
    ensures length { HasLength result }
{
    if BIG { BIG_FIRST } else { LITTLE }
}
