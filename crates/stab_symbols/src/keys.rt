ghost use Rattle.std.specs.Prelude.{◌≡◌};
ghost use Rattle.stab_symbols.specs.Keys as spec;

use crate::tree::{Key, Num};

/// The key of a type number: a plain number `n` means `(0,n)`. Takes no memory.
pub fn key_of(num: &Num) -> Key
    ensures { result ≡ spec.key_of num.now }
{
    match num {
        Num::Plain(number) => Key {
            file: 0,
            number: *number,
        },
        Num::Pair(file, number) => Key {
            file: *file,
            number: *number,
        },
    }
}
