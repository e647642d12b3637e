ghost use Rattle.std.specs.Prelude.{◌≡◌};
ghost use Rattle.st_base.specs.declared.sizes.TheConstants.{HEADER_SIZE};
ghost use Rattle.aout_layout.specs.declared.header.TheConstants.{FIRST_WORD, TEXT, DATA, BSS, SYMBOLS, ENTRY, TEXT_RELOCS, DATA_RELOCS, OMAGIC, TWO_ORDERS};

/// The size of a header, the offset of each of its words, its magic, and the machine word that is refused.
pub fn limits_are()
    ensures header_size { HEADER_SIZE ≡ 32 }
    ensures first_word { FIRST_WORD ≡ 0 }
    ensures text { TEXT ≡ 4 }
    ensures data_part { DATA ≡ 8 }
    ensures bss { BSS ≡ 12 }
    ensures symbols { SYMBOLS ≡ 16 }
    ensures entry { ENTRY ≡ 20 }
    ensures text_relocs { TEXT_RELOCS ≡ 24 }
    ensures data_relocs { DATA_RELOCS ≡ 28 }
    ensures magic { OMAGIC ≡ 0x0107 }
    ensures two_orders { TWO_ORDERS ≡ 0x0701 }
{}
