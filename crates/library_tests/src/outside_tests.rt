use crate::holds::all_hold;
use outside::{
    DiskFiles, Files, Loaded, MemoryFiles, MemorySink, Put, Sink, Stored, StreamSink, SureFiles,
    SureSink,
};
use st_base::{Memory, Text};
use std::alloc::Global;
use std::fs;
use std::fs::File;
use std::process::Abort;
use std::test::Fail;
use test_tables::{Answer, Calls, Given};

/// Files and a sink, on which the rows of a table are called one after another.
#[derive(Drop)]
struct Outside<F: Files + Drop, S: Sink + Drop> {
    files: F,
    sink: S,
}

fn put_loaded(loaded: Loaded, out: &mut Answer) {
    match loaded {
        Loaded::Bytes(text) => out.put_bytes(text.bytes()),
        Loaded::Absent => out.put(b"absent"),
        Loaded::Long => out.put(b"long"),
        Loaded::Failed => out.put(b"failed"),
        Loaded::Memory => out.lose(),
    }
}

fn put_stored(stored: Stored, out: &mut Answer) {
    match stored {
        Stored::Done => out.put(b"done"),
        Stored::Failed => out.put(b"failed"),
        Stored::Memory => out.lose(),
    }
}

fn put_put(put: Put, out: &mut Answer) {
    match put {
        Put::Done => out.put(b"done"),
        Put::Failed => out.put(b"failed"),
        Put::Memory => out.lose(),
    }
}

/// More bytes than one read is asked for.
fn long_text(alloc: Global) -> Result<Text, Memory> {
    let mut text = Text::new(alloc);
    for number in 0..150_001u32 {
        text.push((number % 251) as u8)?;
    }
    Ok(text)
}

/// Whether the bytes are stored under a name, and loaded from it again.
fn is_kept<F: Files>(files: &mut F, alloc: Global, name: Text, bytes: &Text) -> bool {
    let stored = files.store(alloc, &name, bytes);
    match files.load(alloc, name, 150_001) {
        Loaded::Bytes(loaded) => stored == Stored::Done && loaded.bytes() == bytes.bytes(),
        _ => false,
    }
}

/// A call of files, with the name of a file.
fn call_files<F: Files>(files: &mut F, call: &str, name: Text, given: &Given, out: &mut Answer) {
    match call {
        "load" => put_loaded(files.load(out.alloc, name, given.number(0)), out),
        "store" => match Text::of(out.alloc, given.bytes(1)) {
            Ok(content) => put_stored(files.store(out.alloc, &name, &content), out),
            Err(_) => out.lose(),
        },
        _ => match long_text(out.alloc) {
            Ok(bytes) => {
                let kept = is_kept(files, out.alloc, name, &bytes);
                out.put(if kept { b"kept" } else { b"lost" });
            }
            Err(_) => out.lose(),
        },
    }
}

impl<F: Files + Drop, S: Sink + Drop> Calls for Outside<F, S> {
    fn answer(&mut self, call: &str, given: &Given, out: &mut Answer) {
        match (call, Text::of(out.alloc, given.bytes(0))) {
            ("put", _) => put_put(self.sink.put(given.bytes(0)), out),
            (_, Ok(name)) => call_files(&mut self.files, call, name, given, out),
            (_, Err(_)) => out.lose(),
        }
    }
}

/// A name, and the most bytes; a name, and its bytes; the name of a long file; and what a sink is given.
const CALLS: &[u8] = b"
load : bytes number64
store : bytes bytes
keep : bytes
put : bytes
";

/// Asserts what a sink was given.
fn is_written(rt: &impl Abort, written: &[u8], said: &[u8]) {
    assert_eq!(rt; written, said);
}

/// The file a.o holds `one`, and the calls 2 and 4, counted from 0, fail.
fn memory_files(alloc: Global) -> Result<MemoryFiles, Memory> {
    let mut files = MemoryFiles::new(alloc);
    files.fail_at(2)?;
    files.fail_at(4)?;
    files.hold(Text::of(alloc, b"a.o")?, Text::of(alloc, b"one")?)?;
    Ok(files)
}

/// The put 1, counted from 0, fails.
fn memory_sink(alloc: Global) -> Result<MemorySink, Memory> {
    let mut sink = MemorySink::new(alloc);
    sink.fail_at(1)?;
    Ok(sink)
}

const IN_MEMORY: &[u8] = b"
# as many bytes as are asked for, and one more
load 'a.o' 3 -> 'one'
load 'a.o' 2 -> long
# a call that fails changes nothing
store 'a.o' 'three' -> failed
store 'a.o' 'two' -> done
load 'a.o' 3 -> failed
load 'a.o' 3 -> 'two'
# another name, and no bytes
load 'b.o' 3 -> absent
store 'b.o' . -> done
load 'b.o' 0 -> .
load 'a.o' 9 -> 'two'
load . 9 -> absent

# a put that fails leaves nothing
put 'one'20 -> done
put 'two'20 -> failed
put . -> done
put 'three' -> done
";

#[test]
fn files_and_a_sink_in_memory_answer(rt: HostRuntime) -> Result<(), Fail> {
    let alloc = rt.alloc();
    let mut calls = Outside {
        files: memory_files(alloc)?,
        sink: memory_sink(alloc)?,
    };
    all_hold(&rt, alloc, &mut calls, CALLS, IN_MEMORY);
    is_written(&rt, calls.sink.written(), b"one three");
    Ok(())
}

/// The file a.o holds `one`.
fn sure_files(alloc: Global) -> Result<SureFiles, Memory> {
    let mut files = SureFiles::new(alloc);
    files.hold(Text::of(alloc, b"a.o")?, Text::of(alloc, b"one")?)?;
    Ok(files)
}

const SURE: &[u8] = b"
load 'a.o' 3 -> 'one'
load 'a.o' 2 -> long
load 'b.o' 9 -> absent
store 'b.o' 'two' -> done
store 'a.o' . -> done
load 'b.o' 9 -> 'two'
load 'a.o' 0 -> .
put 'stab'0a -> done
put . -> done
put 00ff -> done
";

#[test]
fn sure_files_and_a_sure_sink_answer(rt: HostRuntime) -> Result<(), Fail> {
    let alloc = rt.alloc();
    let mut calls = Outside {
        files: sure_files(alloc)?,
        sink: SureSink::new(alloc),
    };
    all_hold(&rt, alloc, &mut calls, CALLS, SURE);
    is_written(&rt, calls.sink.written(), b"stab\n\x00\xff");
    Ok(())
}

const ON_DISK: &[u8] = b"
store 'library_tests_a.tmp' 'one'00ff -> done
load 'library_tests_a.tmp' 5 -> 'one'00ff
load 'library_tests_a.tmp' 4 -> long
# a store makes the file anew
store 'library_tests_a.tmp' 'x' -> done
load 'library_tests_a.tmp' 5 -> 'x'
load 'library_tests_b.tmp' 5 -> absent
# a folder, and a name that is not UTF-8
load '.' 5 -> failed
store '.' 'x' -> failed
load ff 5 -> failed
store ff 'x' -> failed

# more bytes than one read is asked for
keep 'library_tests_long.tmp' -> kept

# what a sink takes stands in its file
put 'stab'0a -> done
put . -> done
put 00ff -> done
load 'library_tests_printed.tmp' 7 -> 'stab'0a00ff
";

#[test]
fn files_and_a_sink_on_disk_answer(rt: HostRuntime) -> Result<(), Fail> {
    let mut calls = Outside {
        files: DiskFiles::new(rt.clone()?),
        sink: StreamSink::new(File::create(&rt, "library_tests_printed.tmp")?),
    };
    all_hold(&rt, rt.alloc(), &mut calls, CALLS, ON_DISK);
    for name in [
        "library_tests_a.tmp",
        "library_tests_long.tmp",
        "library_tests_printed.tmp",
    ] {
        fs::remove_file(&rt, name)?;
    }
    Ok(())
}
