//! What a run comes to: a status, what is printed, and what is stored. A refusal is turned into its status and its line here
//! alone.

ghost use Rattle.std.specs.Prelude.{◌≡◌, ◌++◌, decimal, IfOk, OnOk};
ghost use Rattle.file_commands.specs.Outcomes as spec;

use st_base::{Fault, Memory, TOO_LARGE, Text, put_number, show};
use std::alloc::Global;

/// The defined output was printed, and stored where the command stores.
pub const DONE: u8 = 0;
/// The words are no command.
pub const USAGE: u8 = 2;
/// An input has a fault.
pub const REFUSED: u8 = 3;
/// The inputs together have a fault.
pub const LIST_REFUSED: u8 = 4;
/// A file is not there.
pub const ABSENT: u8 = 5;
/// Reading a file failed.
pub const READ_FAULT: u8 = 6;
/// Storing a file or printing failed.
pub const WRITE_FAULT: u8 = 7;
/// Out of memory.
pub const NO_MEMORY: u8 = 8;
/// A size passes its limit.
pub const LIMIT: u8 = 9;

/// A name and the bytes that it is to hold.
#[derive(Debug, Drop)]
pub struct Content {
    pub name: Text,
    pub bytes: Text,
}

/// What a run comes to.
#[derive(Debug, Drop)]
pub struct Outcome {
    /// One of the statuses of this file.
    pub status: u8,
    /// What is printed, after something was stored.
    pub text: Text,
    /// What is stored, if something is.
    pub stored: Option<Content>,
}

/// The line alone, with a line feed behind it.
fn line(status: u8, mut text: Text) -> Result<Outcome, Memory>
    ensures { IfOk result (λ o. o ≡ spec.line status text) }
{
    text.push(b'\n')?;
    Ok(printed(status, text))
}

/// What is printed alone. Takes no memory.
pub fn printed(status: u8, text: Text) -> Outcome
    ensures { result ≡ spec.printed status text }
{
    Outcome {
        status,
        text,
        stored: None,
    }
}

/// The outcome of words that are no command: `usage: word W`, where W is the place of the wrong word. Takes memory for that line.
#[tactic(auto, unfolding(crate::specs::Outcomes::usage))]
pub fn usage(alloc: Global, word: usize) -> Result<Outcome, Memory>
    ensures { IfOk result (λ o. o ≡ spec.usage word) }
{
    let mut text = Text::of(alloc, b"usage: word ")?;
    put_number(word as u64, &mut text)?;
    line(USAGE, text)
}

/// `absent NAME`.
#[tactic(auto, unfolding(crate::specs::Outcomes::absent))]
pub fn absent(alloc: Global, name: &[u8]) -> Result<Outcome, Memory>
    ensures { IfOk result (λ o. o ≡ spec.absent name.now) }
{
    let mut text = Text::of(alloc, b"absent ")?;
    show(&mut text, name)?;
    line(ABSENT, text)
}

/// `read fault NAME`.
#[tactic(auto, unfolding(crate::specs::Outcomes::read_fault))]
pub fn read_fault(alloc: Global, name: &[u8]) -> Result<Outcome, Memory>
    ensures { IfOk result (λ o. o ≡ spec.read_fault name.now) }
{
    let mut text = Text::of(alloc, b"read fault ")?;
    show(&mut text, name)?;
    line(READ_FAULT, text)
}

/// `limit M`, the limit that is passed.
#[tactic(auto, unfolding(crate::specs::Outcomes::limit))]
pub fn limit(alloc: Global, most: u64) -> Result<Outcome, Memory>
    ensures { IfOk result (λ o. o ≡ spec.limit most) }
{
    let mut text = Text::of(alloc, b"limit ")?;
    put_number(most, &mut text)?;
    line(LIMIT, text)
}

fn put_fault(fault: Fault, out: &mut Text) -> Result<(), Memory>
    ensures { OnOk result (out.new ≡ out.old ++ spec.fault_text fault) }
{
    put_number(u64::from(fault.number), out)?;
    out.push(b' ')?;
    put_number(fault.place, out)?;
    out.push(b' ')?;
    put_number(fault.within, out)
}

/// `refused NAME N P W`.
#[tactic(auto, unfolding(crate::specs::Outcomes::refused))]
pub fn refused(alloc: Global, name: &[u8], fault: Fault) -> Result<Outcome, Memory>
    ensures { IfOk result (λ o. o ≡ spec.refused name.now fault) }
{
    let mut text = Text::of(alloc, b"refused ")?;
    show(&mut text, name)?;
    text.push(b' ')?;
    put_fault(fault, &mut text)?;
    line(REFUSED, text)
}

/// The line of a fault of an input: `limit M` where a size passes its limit, which is the fault's place, else `refused NAME N P W`.
pub fn refused_or_limit(alloc: Global, name: &[u8], fault: Fault) -> Result<Outcome, Memory>
    ensures { IfOk result (λ o. o ≡ spec.refused_or_limit name.now fault) }
{
    if fault.number == TOO_LARGE {
        limit(alloc, fault.place)
    } else {
        refused(alloc, name, fault)
    }
}

/// `list N P W`.
#[tactic(auto, unfolding(crate::specs::Outcomes::list_refused))]
pub fn list_refused(alloc: Global, fault: Fault) -> Result<Outcome, Memory>
    ensures { IfOk result (λ o. o ≡ spec.list_refused fault) }
{
    let mut text = Text::of(alloc, b"list ")?;
    put_fault(fault, &mut text)?;
    line(LIST_REFUSED, text)
}

/// `list N P W NAME`, the name that the fault is about.
#[tactic(auto, unfolding(crate::specs::Outcomes::list_refused_at))]
pub fn list_refused_at(alloc: Global, fault: Fault, name: &[u8]) -> Result<Outcome, Memory>
    ensures { IfOk result (λ o. o ≡ spec.list_refused_at fault name.now) }
{
    let mut text = Text::of(alloc, b"list ")?;
    put_fault(fault, &mut text)?;
    text.push(b' ')?;
    show(&mut text, name)?;
    line(LIST_REFUSED, text)
}

/// These bytes are stored under a name, and a text is printed.
pub fn kept_with(alloc: Global, name: &[u8], bytes: Text, text: Text) -> Result<Outcome, Memory>
    ensures { IfOk result (λ o. o ≡ spec.kept_with name.now bytes text) }
{
    let name = Text::of(alloc, name)?;
    Ok(Outcome {
        status: DONE,
        text,
        stored: Some(Content { name, bytes }),
    })
}

/// These bytes are stored under a name, and nothing is printed.
pub fn kept(alloc: Global, name: &[u8], bytes: Text) -> Result<Outcome, Memory>
    ensures { IfOk result (λ o. o ≡ spec.kept name.now bytes) }
{
    let name = Text::of(alloc, name)?;
    Ok(Outcome {
        status: DONE,
        text: Text::new(alloc),
        stored: Some(Content { name, bytes }),
    })
}
