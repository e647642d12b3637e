ghost use Rattle.std.specs.Prelude.{◌≡◌};
ghost use Rattle.command_line.specs.declared.limits.TheConstants.{MOST_NAMES, OBJECT_LIMIT};

/// What each limit is, in numbers: definitions cite the constants, so that a changed constant would change what they say.
pub fn limits_are()
    ensures object_limit { OBJECT_LIMIT ≡ 16777216 }
    ensures most_names { MOST_NAMES ≡ 1024 }
{}
