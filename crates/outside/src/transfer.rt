ghost use Rattle.std.specs.Prelude.{◌≡◌, ◌+◌, ◌<◌, length, vec_len, IfOk, IfErr};
ghost use Rattle.std.specs.Bool.{OnTrue, OnFalse};
ghost use Rattle.std.specs.Io.KnownBytes.{Appends};
ghost use Rattle.outside.specs.Transfer as spec;
ghost use Rattle.outside.specs.Transfer.{ReadsOnce, ReadsWhole, TakesAtMost, AppendsFront};

use crate::files::Loaded;
use st_base::Text;
use std::alloc::Global;
use std::io::{Read, Write};

/// How many bytes a reader is asked for at once: a large file takes few reads.
const PIECE: usize = 65536;

/// Why reading stops before the end.
#[derive(Clone, Copy, Drop)]
pub enum Stop {
    /// The read failed, and gave nothing.
    Failed,
    /// Out of memory: what was read is lost.
    Memory,
}

/// What one read came to.
#[derive(Clone, Copy, Drop)]
pub enum Step {
    /// Bytes were read, and appended to the text.
    More,
    /// Nothing is left.
    End,
    /// Reading stops here.
    Stops(Stop),
}

/// The answer of a load whose reading stops: out of memory is never a failed read.
fn stopped(why: Stop) -> Loaded
    ensures { result ≡ spec.stopped why }
{
    match why {
        Stop::Failed => Loaded::Failed,
        Stop::Memory => Loaded::Memory,
    }
}

/// So many bytes to read into, or out of memory.
fn room_of(alloc: Global, size: usize) -> Result<Vec<u8>, Stop>
    ensures room { IfOk result (λ room. vec_len room ≡ size) }
    ensures memory { IfErr result (λ why. why ≡ Stop.Memory) }
{
    match vec![in alloc; 0u8; size] {
        Ok(room) => Ok(room),
        Err(_) => Err(Stop::Memory),
    }
}

/// Reads once into `room`, and appends what was read to a text.
#[tactic(auto, using(crate::proofs::TransferLemmas::takes))]
fn read_more<R: Read>(from: &mut R, room: &mut [u8], text: &mut Text) -> Step
    requires { 0 < length room.old }
    ensures read { ReadsOnce (R.remaining from.old) (R.remaining from.new) text.old text.new (length room.old) result }
    ensures asked { TakesAtMost (length room.old) (R.remaining from.old) (R.remaining from.new) }
{
    match from.read(room) {
        Err(_) => Step::Stops(Stop::Failed),
        Ok(0) => Step::End,
        Ok(count) => match text.extend(&room[..count]) {
            Ok(()) => Step::More,
            Err(_) => Step::Stops(Stop::Memory),
        },
    }
}

/// As `read_whole`, with bytes to read into.
fn read_by<R: Read>(alloc: Global, from: &mut R, most: u64, room: &mut [u8]) -> Loaded
    requires { 0 < length room.old }
    ensures read { ReadsWhole (R.remaining from.old) (R.remaining from.new) most result }
    ensures asked { TakesAtMost (most + 1) (R.remaining from.old) (R.remaining from.new) }
{
    let mut text = Text::new(alloc);
    while text.bytes().len() as u64 <= most {
        let left = most - text.bytes().len() as u64;
        let asked = left.saturating_add(1).min(room.len() as u64) as usize;
        match read_more(from, &mut room[..asked], &mut text) {
            Step::More => {}
            Step::End => return Loaded::Bytes(text),
            Step::Stops(why) => return stopped(why),
        }
    }
    Loaded::Long
}

/// As `read_whole`, into this room; where there is none, why there is none is the answer.
fn read_into<R: Read>(alloc: Global, from: &mut R, most: u64, room: Result<Vec<u8>, Stop>) -> Loaded
    requires room { IfOk room (λ room. 0 < vec_len room) }
    requires memory { IfErr room (λ why. why ≡ Stop.Memory) }
    ensures none { IfErr room (λ why. result ≡ spec.stopped why) }
    ensures read { ReadsWhole (R.remaining from.old) (R.remaining from.new) most result }
    ensures asked { TakesAtMost (most + 1) (R.remaining from.old) (R.remaining from.new) }
{
    match room {
        Ok(mut room) => read_by(alloc, from, most, &mut room),
        Err(why) => stopped(why),
    }
}

/// What a reader has left, if it has at most `most` bytes. It is asked for at most `most` + 1 bytes in all,
/// and a read that gives nothing is the end. `Failed` is a read that failed, before which the reader gave at
/// most `most` bytes; `Memory` is out of memory.
pub fn read_whole<R: Read>(alloc: Global, from: &mut R, most: u64) -> Loaded
    ensures read { ReadsWhole (R.remaining from.old) (R.remaining from.new) most result }
    ensures asked { TakesAtMost (most + 1) (R.remaining from.old) (R.remaining from.new) }
{
    read_into(alloc, from, most, room_of(alloc, PIECE))
}

/// Writes all bytes, and tells whether it could. A writer that takes nothing of a piece fails.
pub fn write_whole<W: Write>(to: &mut W, bytes: &[u8]) -> bool
    ensures done { OnTrue result (Appends (W.contents to.old) (W.contents to.new) bytes.now) }
    ensures failed { OnFalse result (AppendsFront (W.contents to.old) (W.contents to.new) bytes.now) }
{
    let mut rest = bytes;
    while !rest.is_empty() {
        match to.write(rest) {
            Err(_) => return false,
            Ok(0) => return false,
            Ok(count) => rest = &rest[count..],
        }
    }
    true
}

/// Writes all bytes and flushes them, and tells whether it could.
#[tactic(auto, using(crate::proofs::TransferLemmas::keeps))]
pub fn write_through<W: Write>(to: &mut W, bytes: &[u8]) -> bool
    ensures done { OnTrue result (Appends (W.contents to.old) (W.contents to.new) bytes.now) }
    ensures failed { OnFalse result (AppendsFront (W.contents to.old) (W.contents to.new) bytes.now) }
{
    if !write_whole(to, bytes) {
        return false;
    }
    match to.flush() {
        Ok(()) => true,
        Err(_) => false,
    }
}
