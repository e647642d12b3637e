ghost use Rattle.std.specs.Prelude.{◌≡◌, ◌⊎◌, ◌+◌, IfOk, Ok, Err};
ghost use Rattle.st_base.specs.declared.fault.Fault.{Fault};
ghost use Rattle.readers.specs.declared.fault.TextFault.{TextFault};
ghost use Rattle.stab_symbols.specs.declared.tree.Symbol.{Symbol};
ghost use Rattle.stab_grammar.specs.StringFaults as spec;
ghost use Rattle.stab_grammar.specs.StringFaults.{IsSpelling, IsFirstStringFault, IsStringFault};

use crate::grammar::whole_symbol;
use readers::{TextFault, Unread, told};
use st_base::{BYTE, DEEP, END, Fault, Refused, Steps};
use stab_symbols::Symbol;
use std::alloc::Global;
use std::sync::ledger::Ledger;

// The symbol that the string spells, or its first fault.
fn read_symbol(alloc: Global, text: &[u8]) -> Result<Symbol, Unread>
    // What is read is spelled so.
    ensures found { IfOk result (λ s. IsSpelling s text.now) }
    // What is spelled so is read, unless memory runs out.
    ensures only { (s : Symbol) → IsSpelling s text.now → (result ≡ Ok s) ⊎ (result ≡ Err Unread.Memory) }
    // A fault that is reported is the first.
    ensures fault { (f : TextFault) → result ≡ Err (Unread.At f) → IsFirstStringFault text.now f }
    // The first fault is reported, unless memory runs out.
    ensures first { (f : TextFault) → IsFirstStringFault text.now f → (result ≡ Err (Unread.At f)) ⊎ (result ≡ Err Unread.Memory) }
{
    match whole_symbol(alloc, text) {
        Ok(symbol) => Ok(symbol),
        Err(refusal) => Err(told(text.len(), refusal)),
    }
}

// The fault with its number.
fn fault_of(fault: TextFault) -> Fault
    ensures { result ≡ spec.fault_of fault }
{
    let (number, place) = match fault {
        TextFault::Byte(place) => (BYTE, place),
        TextFault::End(place) => (END, place),
        TextFault::Deep(place) => (DEEP, place),
    };
    Fault::at(number, place as u64)
}

/// The symbol that a stab string spells: `name:`, a descriptor, a type.
///
/// A number has no leading zero and is at most 2147483647, a file at most 65535; the bound of a range, `J` or digits with or
/// without `-`, and the value of a choice have at most 40 digits, which are kept as they stand; types are at most 100 deep, the
/// outermost included. The string may have any length. Any other string is refused with its first fault, the place in the
/// string counted from 0 and within 0: `BYTE` at the first byte with which the string begins no spelling, `END` at its
/// length where it only begins one, `DEEP` where a type begins that is too deep. Takes memory for the tree; out of memory is its
/// own answer. After "The stabs debug format", the C parts.
pub fn parse<L: Ledger>(alloc: Global, text: &[u8], steps: &mut Steps<L>) -> Result<Symbol, Refused>
    // One call is one step.
    ensures ticks { steps.new ≡ steps.old + 1 }
    // What is read is spelled so.
    ensures found { IfOk result (λ s. IsSpelling s text.now) }
    // What is spelled so is read, unless memory runs out.
    ensures only { (s : Symbol) → IsSpelling s text.now → (result ≡ Ok s) ⊎ (result ≡ Err Refused.Memory) }
    // A fault that is reported is the first.
    ensures fault { (f : Fault) → result ≡ Err (Refused.At f) → IsStringFault text.now f }
    // The first fault is reported, unless memory runs out.
    ensures first { (f : Fault) → IsStringFault text.now f → (result ≡ Err (Refused.At f)) ⊎ (result ≡ Err Refused.Memory) }
{
    steps.tick();
    match read_symbol(alloc, text) {
        Ok(symbol) => Ok(symbol),
        Err(Unread::Memory) => Err(Refused::Memory),
        Err(Unread::At(fault)) => Err(Refused::At(fault_of(fault))),
    }
}
