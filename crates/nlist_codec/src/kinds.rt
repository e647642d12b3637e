ghost use Rattle.std.specs.Prelude.{◌≡◌};
ghost use Rattle.st_base.specs.declared.sizes.TheConstants.{ENTRY_SIZE};
ghost use Rattle.nlist_codec.specs.Kinds as spec;
ghost use Rattle.nlist_codec.specs.declared.kinds.TheConstants.{SEGMENT_BITS, ABSOLUTE_SEGMENT, TEXT_SEGMENT, DATA_SEGMENT, BSS_SEGMENT, UNDEFINED_EXTERNAL, ABSOLUTE_EXTERNAL, TEXT_EXTERNAL, DATA_EXTERNAL, BSS_EXTERNAL};

// The kinds of the entries that are no stabs. After a.out(5), `n_type`.

/// The bits of a kind that give its segment, `N_TYPE`.
pub const SEGMENT_BITS: u8 = 0x1e;
/// No segment: the value is a number and not an address, `N_ABS`.
pub const ABSOLUTE_SEGMENT: u8 = 2;
/// The segment of text, `N_TEXT`.
pub const TEXT_SEGMENT: u8 = 4;
/// The segment of data, `N_DATA`.
pub const DATA_SEGMENT: u8 = 6;
/// The segment of bss, `N_BSS`.
pub const BSS_SEGMENT: u8 = 8;

/// A name that another object defines, where the value is 0, else a common whose size is the value: `N_UNDF` with `N_EXT`.
pub const UNDEFINED_EXTERNAL: u8 = 1;
/// A definition whose value is a number and not an address, which all objects see: `N_ABS` with `N_EXT`.
pub const ABSOLUTE_EXTERNAL: u8 = 3;
/// A definition in text, which all objects see: `N_TEXT` with `N_EXT`.
pub const TEXT_EXTERNAL: u8 = 5;
/// A definition in data, which all objects see: `N_DATA` with `N_EXT`.
pub const DATA_EXTERNAL: u8 = 7;
/// A definition in bss, which all objects see: `N_BSS` with `N_EXT`. The greatest kind of an entry that is no stab.
pub const BSS_EXTERNAL: u8 = 9;

/// Whether an entry of this kind defines its name for all objects. Takes no memory. After a.out(5), `N_EXT`.
pub fn defines_name(kind: u8) -> bool
    ensures { result ≡ spec.defines_name kind }
{
    kind == ABSOLUTE_EXTERNAL
        || kind == TEXT_EXTERNAL
        || kind == DATA_EXTERNAL
        || kind == BSS_EXTERNAL
}

/// The size of an entry, and what the number of each kind and of each segment is.
pub fn limits_are()
    ensures entry_size { ENTRY_SIZE ≡ 12 }
    ensures segment_bits { SEGMENT_BITS ≡ 0x1e }
    ensures absolute_segment { ABSOLUTE_SEGMENT ≡ 2 }
    ensures text_segment { TEXT_SEGMENT ≡ 4 }
    ensures data_segment { DATA_SEGMENT ≡ 6 }
    ensures bss_segment { BSS_SEGMENT ≡ 8 }
    ensures undefined { UNDEFINED_EXTERNAL ≡ 1 }
    ensures absolute { ABSOLUTE_EXTERNAL ≡ 3 }
    ensures text { TEXT_EXTERNAL ≡ 5 }
    ensures in_data { DATA_EXTERNAL ≡ 7 }
    ensures bss { BSS_EXTERNAL ≡ 9 }
{}
