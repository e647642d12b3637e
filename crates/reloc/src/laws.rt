ghost use Rattle.std.specs.Prelude.{◌≡◌, ◌==◌, ◌||◌, ℕ};
ghost use Rattle.st_base.specs.declared.sizes.TheConstants.{RELOC_SIZE};
ghost use Rattle.reloc.specs.Relocs.{is_segment};

/// The size of a relocation, and the numbers of the segments that it can name.
pub fn limits_are()
    ensures reloc_size { RELOC_SIZE ≡ 8 }
    ensures segments { (symbol : ℕ) → is_segment symbol ≡ (symbol == 2 || symbol == 4 || symbol == 6 || symbol == 8) }
{}
