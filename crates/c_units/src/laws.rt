ghost use Rattle.std.specs.Prelude.{◌≡◌, flat_map};
ghost use Rattle.c_units.specs.Files.{basic_symbols};
ghost use Rattle.c_types.specs.Lines.{symbol_line};
ghost use Rattle.c_types.specs.declared.sizes.TheConstants.{SIZE_LIMIT};
ghost use Rattle.c_units.specs.declared.tags.TheConstants.{NUMBER_LIMIT};
ghost use Rattle.c_units.specs.declared.functions.TheConstants.{LINE_LIMIT};
ghost use Rattle.c_units.specs.declared.files.TheConstants.{BASIC_LINES};

/// The greatest size of a type, number of a type, and line of a function or a statement.
pub fn limits_are()
    ensures size { SIZE_LIMIT ≡ 134217728 }
    ensures number { NUMBER_LIMIT ≡ 2147483647 }
    ensures line { LINE_LIMIT ≡ 65535 }
{}

/// The lines of the basic types are those of their symbols, in order of their numbers.
pub fn basic_lines_are()
    ensures { BASIC_LINES.now ≡ flat_map symbol_line basic_symbols }
{}
