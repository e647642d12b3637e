ghost use Rattle.std.specs.Prelude.{◌≡◌};
ghost use Rattle.c_types.specs.declared.sizes.TheConstants.{SIZE_LIMIT};

/// The greatest size of a type, in bytes.
pub fn size_limit_is()
    ensures { SIZE_LIMIT ≡ 134217728 }
{}
