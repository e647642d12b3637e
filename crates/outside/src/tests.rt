use crate::files::Loaded;
use crate::sink::{Put, Sink};
use crate::stream_sink::StreamSink;
use crate::transfer::{read_whole, write_through};
use std::io;
use std::io::{ErrorKind, Read, Write};

/// The number of a call that never comes.
const NEVER: usize = 99;

/// Gives at most `step` of its bytes at a read, and fails at the read of this number, counted from 0.
#[derive(Drop)]
struct Reader {
    left: &'static [u8],
    step: usize,
    reads: usize,
    fails_at: usize,
}

impl Read for Reader {
    fn read(&mut self, buf: &mut [u8]) -> io::Result<usize> {
        let number = self.reads;
        self.reads = number.saturating_add(1);
        if number == self.fails_at {
            return Err(io::Error::from(ErrorKind::ConnectionReset));
        }
        let count = self.left.len().min(buf.len()).min(self.step);
        buf[..count].copy_from_slice(&self.left[..count]);
        self.left = &self.left[count..];
        Ok(count)
    }
}

/// Takes at most `step` bytes at a write, and fails at the write of this number, counted from 0, or at a flush.
#[derive(Clone, Copy, Drop)]
struct Writer {
    taken: usize,
    step: usize,
    writes: usize,
    fails_at: usize,
    flushes: bool,
}

impl Write for Writer {
    fn write(&mut self, buf: &[u8]) -> io::Result<usize> {
        let number = self.writes;
        self.writes = number.saturating_add(1);
        if number == self.fails_at {
            return Err(io::Error::from(ErrorKind::ConnectionReset));
        }
        let count = buf.len().min(self.step);
        self.taken = self.taken.saturating_add(count);
        Ok(count)
    }

    fn flush(&mut self) -> io::Result<()> {
        if self.flushes {
            Ok(())
        } else {
            Err(io::Error::from(ErrorKind::ConnectionReset))
        }
    }
}

/// Whether a load answered these bytes, or failed where there are none.
fn is_answer(loaded: &Loaded, expected: Option<&[u8]>) -> bool {
    match (loaded, expected) {
        (Loaded::Bytes(text), Some(bytes)) => text.bytes() == bytes,
        (Loaded::Failed, None) => true,
        _ => false,
    }
}

#[test]
fn a_reader_is_read_to_its_end_or_fails(rt: HostRuntime) {
    let rows = [
        ("all at once", 9, NEVER, Some(b"stabs".as_slice())),
        ("two bytes at a time", 2, NEVER, Some(b"stabs".as_slice())),
        ("nothing is given", 0, NEVER, Some(b"".as_slice())),
        ("fails at the first read", 2, 0, None),
        ("fails in mid-stream", 2, 2, None),
        ("fails behind the last byte", 2, 3, None),
    ];
    for (label, step, fails_at, expected) in rows {
        let mut reader = Reader {
            left: b"stabs",
            step,
            reads: 0,
            fails_at,
        };
        let loaded = read_whole(rt.alloc(), &mut reader, 5);
        assert!(rt; is_answer(&loaded, expected), "{label}");
    }
}

#[test]
fn a_writer_takes_all_bytes_or_the_put_fails(rt: HostRuntime) {
    let rows = [
        ("all at once", 9, NEVER, true, Put::Done, 5),
        ("two bytes at a time", 2, NEVER, true, Put::Done, 5),
        ("takes nothing of a piece", 0, NEVER, true, Put::Failed, 0),
        ("fails at the first write", 2, 0, true, Put::Failed, 0),
        ("fails in mid-stream", 2, 1, true, Put::Failed, 2),
        ("fails at the flush", 9, NEVER, false, Put::Failed, 5),
    ];
    for (label, step, fails_at, flushes, expected, taken) in rows {
        let mut writer = Writer {
            taken: 0,
            step,
            writes: 0,
            fails_at,
            flushes,
        };
        assert_eq!(rt; StreamSink::new(writer).put(b"stabs"), expected, "{label}");
        let done = write_through(&mut writer, b"stabs");
        assert_eq!(rt; done, expected == Put::Done, "{label}");
        assert_eq!(rt; writer.taken, taken, "{label}");
    }
}

#[test]
fn a_put_after_one_that_failed_is_answered_for_itself(rt: HostRuntime) {
    let mut sink = StreamSink::new(Writer {
        taken: 0,
        step: 2,
        writes: 0,
        fails_at: 1,
        flushes: true,
    });
    assert_eq!(rt; sink.put(b"stabs"), Put::Failed);
    assert_eq!(rt; sink.put(b"stabs"), Put::Done);
}
