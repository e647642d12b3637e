ghost use Rattle.std.specs.Prelude.{◌≡◌, ◌≢◌, ◌≤◌};
ghost use Rattle.std.specs.Io.KnownBytes.{Appends};
ghost use Rattle.outside.specs.Causes.{Puts};
ghost use Rattle.outside.specs.OnDisk.{count_after};
ghost use Rattle.outside.specs.Transfer.{AppendsFront};

use crate::sink::{Put, Sink};
use crate::transfer::write_through;
use std::io::Write;
use std::marker::Model;

/// A sink over a writer. It tells nothing of what was written, but where the writer tells what it holds, the
/// clauses of `put` say how that grows. Each put is flushed.
#[derive(Drop)]
pub struct StreamSink<W: Write + Drop> {
    writer: W,
    faults: u64,
}

impl<W: Write + Drop> Model for StreamSink<W> {
    ghost use Rattle.outside.specs.OnDisk.{OverWriter, over_writer_code};

    ghost Value = { OverWriter W };

    ghost coded = { over_writer_code W.code };

    ghost view = { λ s. record { writer = s.writer; faults = s.faults } };
}

impl<W: Write + Drop> StreamSink<W> {
    /// A sink over this writer, of which no put has failed yet. Takes no memory.
    pub fn new(writer: W) -> StreamSink<W>
        ensures { result ≡ record { writer = writer; faults = 0 } }
    {
        StreamSink { writer, faults: 0 }
    }
}

impl<W: Write + Drop> Sink for StreamSink<W> {
    ghost use Rattle.std.specs.Prelude.{None};

    ghost written = { λ _. None };

    ghost faults = { λ s. s.faults };

    /// Takes no memory.
    fn put(&mut self, bytes: &[u8]) -> Put
        ensures done { result ≡ Put.Done → Appends (W.contents self.old.writer) (W.contents self.new.writer) bytes.now }
        ensures failed { result ≡ Put.Failed → AppendsFront (W.contents self.old.writer) (W.contents self.new.writer) bytes.now }
        ensures no_memory { result ≢ Put.Memory }
        ensures count { self.new.faults ≡ count_after self.old.faults result }
        ensures answer { Puts None None self.old.faults self.new.faults bytes.now result }
        ensures later { self.old.faults ≤ self.new.faults }
    {
        if write_through(&mut self.writer, bytes) {
            Put::Done
        } else {
            self.faults = self.faults.saturating_add(1);
            Put::Failed
        }
    }
}
