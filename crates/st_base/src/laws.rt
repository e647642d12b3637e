ghost use Rattle.std.specs.Prelude.{◌≡◌};
ghost use Rattle.st_base.specs.declared.sizes.TheConstants.{WORD_SIZE, HEADER_SIZE, ENTRY_SIZE, RELOC_SIZE, LEAST_STAB, FILE_LIMIT, SOURCE_LIMIT, GREATEST_ADDRESS};
ghost use Rattle.st_base.specs.declared.fault.TheConstants.{MAGIC, MACHINE, SYMBOL_BYTES, RELOC_BYTES, TRUNCATED, TRAILING, ADDRESS, LENGTH, INSIDE, PAST, NO_END, LENGTH8, FLAG, SEGMENT, OUTSIDE, SYMBOL, OVERFLOW, KIND, BYTE, END, DEEP, NO_UNIT, CONTINUATION, OPEN_HEADER, CLOSED_HEADER, BRACKETS, EXCLUDED, HEADERS, LONG, QUERY, LINE_SYNTAX, LINE_RANGE, LINE_UNDEFINED, LINE_TWICE, LINE_MIXED, C_SYNTAX, C_UNKNOWN, C_AGAIN, C_CYCLE, C_INCOMPLETE, C_LARGE, ORDER_MIX, MACHINE_MIX, UNDEFINED, TWICE, TOO_LARGE, EMPTY, NO_HEADER, AMBIGUOUS};

/// What each size and limit is, in numbers: definitions cite the constants, so that a changed constant would change what they say.
pub fn limits_are()
    ensures word_size { WORD_SIZE ≡ 4 }
    ensures header_size { HEADER_SIZE ≡ 32 }
    ensures entry_size { ENTRY_SIZE ≡ 12 }
    ensures reloc_size { RELOC_SIZE ≡ 8 }
    ensures least_stab { LEAST_STAB ≡ 0x20 }
    ensures file_limit { FILE_LIMIT ≡ 134217728 }
    ensures source_limit { SOURCE_LIMIT ≡ 16777216 }
    ensures greatest_address { GREATEST_ADDRESS ≡ 4294967295 }
{}

/// What the number of each fault is.
pub fn fault_numbers_are()
    ensures magic { MAGIC ≡ 1 }
    ensures machine { MACHINE ≡ 2 }
    ensures symbol_bytes { SYMBOL_BYTES ≡ 3 }
    ensures reloc_bytes { RELOC_BYTES ≡ 4 }
    ensures truncated { TRUNCATED ≡ 5 }
    ensures trailing { TRAILING ≡ 6 }
    ensures address { ADDRESS ≡ 7 }
    ensures length { LENGTH ≡ 10 }
    ensures inside { INSIDE ≡ 11 }
    ensures past { PAST ≡ 12 }
    ensures no_end { NO_END ≡ 13 }
    ensures length8 { LENGTH8 ≡ 20 }
    ensures flag { FLAG ≡ 21 }
    ensures segment { SEGMENT ≡ 22 }
    ensures outside { OUTSIDE ≡ 23 }
    ensures symbol { SYMBOL ≡ 24 }
    ensures overflow { OVERFLOW ≡ 25 }
    ensures kind { KIND ≡ 30 }
    ensures byte { BYTE ≡ 40 }
    ensures end { END ≡ 41 }
    ensures deep { DEEP ≡ 42 }
    ensures no_unit { NO_UNIT ≡ 50 }
    ensures continuation { CONTINUATION ≡ 51 }
    ensures open_header { OPEN_HEADER ≡ 52 }
    ensures closed_header { CLOSED_HEADER ≡ 53 }
    ensures brackets { BRACKETS ≡ 54 }
    ensures excluded { EXCLUDED ≡ 55 }
    ensures headers { HEADERS ≡ 57 }
    ensures long { LONG ≡ 58 }
    ensures query { QUERY ≡ 60 }
    ensures line_syntax { LINE_SYNTAX ≡ 70 }
    ensures line_range { LINE_RANGE ≡ 71 }
    ensures line_undefined { LINE_UNDEFINED ≡ 72 }
    ensures line_twice { LINE_TWICE ≡ 73 }
    ensures line_mixed { LINE_MIXED ≡ 74 }
    ensures c_syntax { C_SYNTAX ≡ 80 }
    ensures c_unknown { C_UNKNOWN ≡ 81 }
    ensures c_again { C_AGAIN ≡ 82 }
    ensures c_cycle { C_CYCLE ≡ 83 }
    ensures c_incomplete { C_INCOMPLETE ≡ 84 }
    ensures c_large { C_LARGE ≡ 85 }
    ensures order_mix { ORDER_MIX ≡ 90 }
    ensures machine_mix { MACHINE_MIX ≡ 91 }
    ensures undefined { UNDEFINED ≡ 92 }
    ensures twice { TWICE ≡ 93 }
    ensures too_large { TOO_LARGE ≡ 94 }
    ensures empty { EMPTY ≡ 95 }
    ensures no_header { NO_HEADER ≡ 100 }
    ensures ambiguous { AMBIGUOUS ≡ 101 }
{}
