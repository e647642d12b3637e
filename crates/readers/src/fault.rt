ghost use Rattle.std.specs.Prelude.{◌≡◌};
ghost use Rattle.readers.specs.TextFaults.{LeavesWithin};
ghost use Rattle.readers.specs.TextFaults as faults;

use crate::stop::{Refusal, Stop};

/// The first fault of a text, with its place counted from 0.
#[derive(Clone, Copy, Debug, Drop, PartialEq, Eq)]
pub enum TextFault {
    /// The byte at the place is wrong: up to it the text begins a spelling, and with it no longer.
    Byte(usize),
    /// The text ends too early; the place is its length.
    End(usize),
    /// What begins at the place is too deep.
    Deep(usize),
}

/// Why a text is not read: its first fault, or out of memory.
#[derive(Clone, Copy, Debug, Drop, PartialEq, Eq)]
pub enum Unread {
    Memory,
    At(TextFault),
}

/// A refusal with the place of its fault, in a text of `all` bytes. Takes no memory.
pub fn told(all: usize, refusal: Refusal) -> Unread
    requires { LeavesWithin all refusal }
    ensures { result ≡ faults.told all refusal }
{
    match refusal {
        Refusal::Memory => Unread::Memory,
        Refusal::At(Stop::Bad(left)) => Unread::At(TextFault::Byte(all - left)),
        Refusal::At(Stop::End) => Unread::At(TextFault::End(all)),
        Refusal::At(Stop::Deep(left)) => Unread::At(TextFault::Deep(all - left)),
    }
}
