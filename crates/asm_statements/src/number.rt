ghost use Rattle.std.specs.Prelude.{◌≡◌, ◌≤◌};
ghost use Rattle.asm_statements.specs.Operands as spec;

use crate::statement::Plain;
use std::marker::Model;

/// How a number is kept in four bytes: added or subtracted, where it is below 4,294,967,296, else as that.
#[derive(Drop)]
pub enum Kept {
    More(u32),
    Less(u32),
    MostMore,
    MostLess,
}

/// A number of a stab, up to 4,294,967,296 in size. Contracts see it as a `Plain`.
#[derive(Drop)]
pub struct Number {
    kept: Kept,
}

impl Model for Number {
    ghost use Rattle.asm_statements.specs.declared.statement.Plain.{Plain};
    ghost use Rattle.asm_statements.specs.Expressions.{plain_in};

    ghost Value = { Plain };

    ghost view = { λ n. plain_in n.kept };
}

impl Number {
    /// A number, perhaps subtracted. Takes no memory.
    pub fn of(minus: bool, number: u64) -> Number
        requires { number ≤ 4294967296 }
        ensures { result ≡ spec.plain_with minus number }
    {
        let kept = if number < 4294967296 {
            let low = number as u32;
            if minus {
                Kept::Less(low)
            } else {
                Kept::More(low)
            }
        } else if minus {
            Kept::MostLess
        } else {
            Kept::MostMore
        };
        Number { kept }
    }

    /// The number itself. Takes no memory.
    pub fn plain(&self) -> Plain
        ensures { result ≡ self.now }
    {
        match &self.kept {
            Kept::More(number) => Plain {
                more: u64::from(*number),
                less: 0,
            },
            Kept::Less(number) => Plain {
                more: 0,
                less: u64::from(*number),
            },
            Kept::MostMore => Plain {
                more: 4294967296,
                less: 0,
            },
            Kept::MostLess => Plain {
                more: 0,
                less: 4294967296,
            },
        }
    }
}
