use st_base::Memory;
use std::alloc::AllocError;

/// Why reading stops. Inside a grammar a place is the number of bytes that are left, so that nothing
/// carries a position along.
#[derive(Clone, Copy, Debug, Drop, PartialEq, Eq)]
pub enum Stop {
    /// The byte is wrong; so many bytes are left, it and those after it.
    Bad(usize),
    /// The text ends too early.
    End,
    /// What begins with the byte would be too deep; so many bytes are left, it and those after it.
    Deep(usize),
}

/// Why a reader refuses: reading stops, or out of memory.
#[derive(Clone, Copy, Debug, Drop, PartialEq, Eq)]
pub enum Refusal {
    Memory,
    At(Stop),
}

impl From<Memory> for Refusal {
    ghost use Rattle.std.specs.Prelude.{◌≡◌};
    ghost use Rattle.readers.specs.declared.stop.Refusal.TheVariants as refusal;

    ghost from_gives = { λ _ e. e ≡ refusal.Memory };

    fn from(_memory: Memory) -> Refusal {
        Refusal::Memory
    }
}

impl From<AllocError> for Refusal {
    ghost use Rattle.std.specs.Prelude.{◌≡◌};
    ghost use Rattle.readers.specs.declared.stop.Refusal.TheVariants as refusal;

    ghost from_gives = { λ _ e. e ≡ refusal.Memory };

    fn from(_error: AllocError) -> Refusal {
        Refusal::Memory
    }
}
