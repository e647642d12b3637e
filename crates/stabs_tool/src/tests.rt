//! Runs of the whole program, over files and a sink in memory: the rows of one table, which stands in a file for each command, and once the
//! adapters over real files. What a row says of files holds for the rows after it too.
//!
//! A line of the table begins with its kind. `#` says what the row behind it is about, and is told where the row fails.
//!
//! - `file NAME BYTES`: a file from here on. Bytes are two hexadecimal digits each, and texts between quotes; `_` means nothing. Where
//!   it is an object, its assembly is assembled, and has the same dump and the same check.
//! - `object ORDER NAME ENTRIES`: a file with four bytes of text at 0x1000, four of data, a relocation of each, and these entries,
//!   each `KIND:NAME`, `KIND@VALUE:NAME` or `KIND@VALUE.DESC:NAME`, the numbers in hexadecimal digits. It goes the same round.
//! - `files N`, `sink N`: in the next run the call of this number fails, counted from 0.
//! - `run WORDS`: the program over all files so far, with these words.
//! - `many N NAME WORDS`: the program with these words, and the name so many times behind them, or where `*` stands among them.
//! - `keep NAME FROM`: the file NAME has from here on what FROM holds behind the run.
//! - `carry STATUS NAME BYTES TEXT`: an outcome that stores these bytes under the name and prints the text and a line feed.
//! - `little LINES`, `big LINES`: the source in.s of these lines, which `|` parts, is assembled in this order to out.o without a word, and out.o
//!   is dumped; it is held from here on. `has LINE`: a line of what was printed last. `again ORDER`: the list of out.o is assembled in
//!   this order to the bytes of out.o.
//! - `source LINES`: the source in.s of these lines.
//! - `bad N LINE LINES`: the source of these lines is refused at a line with fault N, and nothing is stored.
//! - `> LINE`: a line that is printed; `holds NAME BYTES`, `lacks NAME`: what the files hold behind the run.
//! - `ends STATUS`: the status, and the end of the row. `rows N`: so many rows there were.

use crate::carry::carry_out;
use crate::{
    as_rows, ask_rows, check_rows, dump_rows, image_rows, link_rows, merge_rows, query_rows, run,
    run_surely,
};
use file_commands::{Content, Outcome};
use outside::{DiskFiles, Files, Loaded, MemoryFiles, MemorySink, StreamSink, SureFiles, SureSink};
use st_base::{List, Text};
use std::alloc::Global;
use std::fs::{self, File};
use std::process::Abort;
use std::str::from_utf8;
use std::test::Fail;

/// A name and the content that it has.
#[derive(Drop)]
struct Held {
    name: Text,
    bytes: Text,
}

/// What the lines so far have said.
#[derive(Drop)]
struct Table {
    alloc: Global,
    held: List<Held>,
    failing_files: List<u64>,
    failing_puts: List<u64>,
    label: Text,
    files: MemoryFiles,
    status: u8,
    printed: Text,
    expected: Text,
    source: Text,
    made: Text,
    rows: u64,
}

// ---- the parts of a line

/// What stands before the first of this byte, and what behind it.
fn cut(line: &[u8], byte: u8) -> (&[u8], &[u8]) {
    for at in 0..line.len() {
        if line[at] == byte {
            return (&line[..at], &line[at + 1..]);
        }
    }
    (line, &[])
}

fn word(line: &[u8]) -> (&[u8], &[u8]) {
    cut(line, b' ')
}

/// The words of a line, split at its blanks.
fn words_of(alloc: Global, line: &[u8]) -> Result<List<Text>, Fail> {
    let mut words = List::new(alloc);
    for word in line.split(|b| *b == b' ') {
        if !word.is_empty() {
            words.push(Text::of(alloc, word)?)?;
        }
    }
    Ok(words)
}

/// The number that digits spell in a base.
fn number_of(base: u64, digits: &[u8]) -> u64 {
    let mut value = 0u64;
    for b in digits {
        let digit = match b {
            b'0'..=b'9' => *b - b'0',
            b'a'..=b'f' => *b - b'a' + 10,
            _ => 0,
        };
        value = value.wrapping_mul(base).wrapping_add(u64::from(digit));
    }
    value
}

fn byte_of(digits: &[u8]) -> u8 {
    u8::try_from(number_of(16, digits)).unwrap_or(0)
}

/// Appends the bytes that a text between no quotes spells.
fn put_hex(digits: &[u8], out: &mut Text) -> Result<(), Fail> {
    for piece in digits.split(|b| *b == b'_') {
        let (pairs, _) = piece.as_chunks::<2>();
        for pair in pairs {
            out.push(byte_of(pair))?;
        }
    }
    Ok(())
}

/// The bytes that a word spells.
fn bytes_of(alloc: Global, spelled: &[u8]) -> Result<Text, Fail> {
    let mut out = Text::new(alloc);
    let mut quoted = false;
    for piece in spelled.split(|b| *b == b'\'') {
        if quoted {
            out.extend(piece)?;
        } else {
            put_hex(piece, &mut out)?;
        }
        quoted = !quoted;
    }
    Ok(out)
}

// ---- objects

fn put_word(out: &mut Text, big: bool, word: u32) -> Result<(), Fail> {
    if big {
        out.extend(&word.to_be_bytes())?;
    } else {
        out.extend(&word.to_le_bytes())?;
    }
    Ok(())
}

/// The number of bytes, and so many more.
fn size_of(text: &Text, more: u32) -> u32 {
    u32::try_from(text.bytes().len())
        .unwrap_or(0)
        .wrapping_add(more)
}

// Text, data and their relocations, each of a field of four bytes.
fn put_parts(out: &mut Text, big: bool) -> Result<(), Fail> {
    out.extend(b"\x01\x02\x03\x04\x05\x06\x07\x08")?;
    if big {
        out.extend(b"\0\0\0\0\0\0\x04\x40\0\0\0\0\0\0\x06\x40")?;
    } else {
        out.extend(b"\0\0\0\0\x04\0\0\x04\0\0\0\0\x06\0\0\x04")?;
    }
    Ok(())
}

// The header: four bytes of text, four of data, eight of bss, the machine word 0x64, the entry word 0x1000.
fn put_header(out: &mut Text, big: bool, entries: u32) -> Result<(), Fail> {
    for word in [0x0064_0107, 4, 4, 8, entries, 0x1000, 8, 8] {
        put_word(out, big, word)?;
    }
    Ok(())
}

/// An entry whose name has this offset, its kind, value and desc spelled before its name.
fn put_entry(out: &mut Text, big: bool, strx: u32, head: &[u8]) -> Result<(), Fail> {
    let (kind, rest) = cut(head, b'@');
    let (value, desc) = cut(rest, b'.');
    let desc = u16::try_from(number_of(16, desc)).unwrap_or(0);
    put_word(out, big, strx)?;
    out.extend(&[byte_of(kind), 0])?;
    if big {
        out.extend(&desc.to_be_bytes())?;
    } else {
        out.extend(&desc.to_le_bytes())?;
    }
    put_word(out, big, u32::try_from(number_of(16, value)).unwrap_or(0))
}

/// An object with these entries.
fn object(alloc: Global, big: bool, spelled: &[u8]) -> Result<Text, Fail> {
    let mut entries = Text::new(alloc);
    let mut names = Text::new(alloc);
    for entry in spelled.split(|b| *b == b' ') {
        let (head, name) = cut(entry, b':');
        if !head.is_empty() {
            put_entry(&mut entries, big, size_of(&names, 4), head)?;
            names.extend(name)?;
            names.push(0)?;
        }
    }
    let mut out = Text::new(alloc);
    put_header(&mut out, big, size_of(&entries, 0))?;
    put_parts(&mut out, big)?;
    out.extend(entries.bytes())?;
    put_word(&mut out, big, size_of(&names, 4))?;
    out.extend(names.bytes())?;
    Ok(out)
}

/// A source of these lines, which `|` parts.
fn source_of(alloc: Global, spelled: &[u8]) -> Result<Text, Fail> {
    let mut out = Text::new(alloc);
    for line in spelled.split(|b| *b == b'|') {
        out.extend(line)?;
        out.push(b'\n')?;
    }
    Ok(out)
}

// ---- lines

impl Table {
    fn new(alloc: Global) -> Table {
        Table {
            alloc,
            held: List::new(alloc),
            failing_files: List::new(alloc),
            failing_puts: List::new(alloc),
            label: Text::new(alloc),
            files: MemoryFiles::new(alloc),
            status: 0,
            printed: Text::new(alloc),
            expected: Text::new(alloc),
            source: Text::new(alloc),
            made: Text::new(alloc),
            rows: 0,
        }
    }

    fn label(&self) -> &str {
        from_utf8(self.label.bytes()).unwrap_or("a row")
    }

    fn hold(&mut self, name: &[u8], bytes: Text) -> Result<(), Fail> {
        let name = Text::of(self.alloc, name)?;
        self.held.push(Held { name, bytes })?;
        Ok(())
    }

    /// The files so far, with the calls that are to fail.
    fn make_files(&mut self) -> Result<(), Fail> {
        self.files = MemoryFiles::new(self.alloc);
        for held in self.held.items() {
            self.files
                .hold(held.name.copy(self.alloc)?, held.bytes.copy(self.alloc)?)?;
        }
        let alloc = self.alloc;
        self.files
            .hold(Text::of(alloc, b"in.s")?, self.source.copy(alloc)?)?;
        if !self.made.bytes().is_empty() {
            self.files
                .hold(Text::of(alloc, b"out.o")?, self.made.copy(alloc)?)?;
        }
        for call in self.failing_files.items() {
            self.files.fail_at(*call)?;
        }
        self.failing_files.cut(0);
        Ok(())
    }

    /// A sink with the puts that are to fail.
    fn make_sink(&mut self) -> Result<MemorySink, Fail> {
        let mut out = MemorySink::new(self.alloc);
        for call in self.failing_puts.items() {
            out.fail_at(*call)?;
        }
        self.failing_puts.cut(0);
        Ok(out)
    }

    fn run(&mut self, line: &[u8]) -> Result<(), Fail> {
        self.make_files()?;
        let mut out = self.make_sink()?;
        let words = words_of(self.alloc, line)?;
        self.status = run(self.alloc, &words, &mut self.files, &mut out);
        self.printed = Text::of(self.alloc, out.written())?;
        Ok(())
    }

    /// The program with these words, and a name so many times behind them, or where `*` stands.
    fn many(&mut self, line: &[u8]) -> Result<(), Fail> {
        let (times, rest) = word(line);
        let (name, words) = word(rest);
        let (front, back) = cut(words, b'*');
        let mut all = Text::of(self.alloc, front)?;
        for _ in 0..number_of(10, times) {
            all.push(b' ')?;
            all.extend(name)?;
        }
        all.extend(back)?;
        self.run(all.bytes())
    }

    fn carry(&mut self, line: &[u8]) -> Result<(), Fail> {
        self.make_files()?;
        let mut out = self.make_sink()?;
        let (status, rest) = word(line);
        let (name, rest) = word(rest);
        let (bytes, said) = word(rest);
        let mut text = Text::of(self.alloc, said)?;
        text.push(b'\n')?;
        let outcome = Outcome {
            status: u8::try_from(number_of(10, status)).unwrap_or(0),
            text,
            stored: Some(Content {
                name: Text::of(self.alloc, name)?,
                bytes: bytes_of(self.alloc, bytes)?,
            }),
        };
        self.status = carry_out(self.alloc, &outcome, &mut self.files, &mut out);
        self.printed = Text::of(self.alloc, out.written())?;
        Ok(())
    }

    /// The source is assembled in this order to out.o, and nothing is printed.
    fn assemble(&mut self, rt: &impl Abort, order: &[u8]) -> Result<Text, Fail> {
        let mut line = Text::of(self.alloc, b"as ")?;
        line.extend(order)?;
        line.extend(b" in.s out.o")?;
        self.run(line.bytes())?;
        assert_eq!(rt; self.printed.bytes(), b"".as_slice(), "{}", self.label());
        assert_eq!(rt; u64::from(self.status), 0, "{}", self.label());
        self.found(b"out.o")
    }

    fn good(&mut self, rt: &impl Abort, order: &[u8], lines: &[u8]) -> Result<(), Fail> {
        self.source = source_of(self.alloc, lines)?;
        self.made = self.assemble(rt, order)?;
        self.rows = self.rows.wrapping_add(1);
        self.run(b"dump out.o")
    }

    fn again(&mut self, rt: &impl Abort, order: &[u8]) -> Result<(), Fail> {
        self.run(b"list out.o")?;
        self.source = self.printed.copy(self.alloc)?;
        let again = self.assemble(rt, order)?;
        assert_eq!(rt; again.bytes(), self.made.bytes(), "{}", self.label());
        self.rows = self.rows.wrapping_add(1);
        Ok(())
    }

    /// A command and a name.
    fn run_on(&mut self, command: &[u8], name: &[u8]) -> Result<(), Fail> {
        let mut line = Text::of(self.alloc, command)?;
        line.extend(name)?;
        self.run(line.bytes())
    }

    /// What `check` says of a file it says of what was assembled, unless it refuses both.
    fn check_both(&mut self, rt: &impl Abort, name: &[u8]) -> Result<(), Fail> {
        self.run_on(b"check ", name)?;
        let status = self.status;
        let checked = self.printed.copy(self.alloc)?;
        self.run(b"check out.o")?;
        assert_eq!(rt;
            u64::from(self.status),
            u64::from(status),
            "{}",
            self.label()
        );
        if status == 0 {
            assert_eq!(rt; self.printed.bytes(), checked.bytes(), "{}", self.label());
        }
        Ok(())
    }

    /// The file, if it is an object, is dumped and checked, and so is what its assembly makes: the two dumps are one.
    fn go_round(&mut self, rt: &impl Abort, name: &[u8]) -> Result<(), Fail> {
        self.run_on(b"dump ", name)?;
        if self.status == 0 {
            let dumped = self.printed.copy(self.alloc)?;
            let big = dumped.bytes().starts_with(b"order big");
            self.run_on(b"list ", name)?;
            self.source = self.printed.copy(self.alloc)?;
            self.made = self.assemble(
                rt,
                if big {
                    b"big".as_slice()
                } else {
                    b"little".as_slice()
                },
            )?;
            self.run(b"dump out.o")?;
            assert_eq!(rt; self.printed.bytes(), dumped.bytes(), "{}", self.label());
            self.check_both(rt, name)?;
            self.source.cut(0);
            self.made.cut(0);
        }
        Ok(())
    }

    fn bad(&mut self, rt: &impl Abort, row: &[u8]) -> Result<(), Fail> {
        let (number, rest) = word(row);
        let (place, lines) = word(rest);
        self.source = source_of(self.alloc, lines)?;
        self.made.cut(0);
        self.run(b"as little in.s out.o")?;
        let mut line = Text::of(self.alloc, b"refused in.s ")?;
        line.extend(number)?;
        line.push(b' ')?;
        line.extend(place)?;
        line.extend(b" 0\n")?;
        assert_eq!(rt; self.printed.bytes(), line.bytes(), "{}", self.label());
        assert_eq!(rt; u64::from(self.status), 3, "{}", self.label());
        let stored = self.found(b"out.o")?;
        assert_eq!(rt; stored.bytes(), b"absent".as_slice(), "{}", self.label());
        self.rows = self.rows.wrapping_add(1);
        Ok(())
    }

    fn has(&self, rt: &impl Abort, wanted: &[u8]) {
        let found = self
            .printed
            .bytes()
            .split(|b| *b == b'\n')
            .any(|line| line == wanted);
        assert!(rt; found, "{}", self.label());
    }

    /// The bytes of a file behind the run, `absent` where there is none.
    fn found(&mut self, name: &[u8]) -> Result<Text, Fail> {
        let name = Text::of(self.alloc, name)?;
        match self.files.load(self.alloc, name, 100_000) {
            Loaded::Bytes(bytes) => Ok(bytes),
            _ => Ok(Text::of(self.alloc, b"absent")?),
        }
    }

    fn end(&mut self, rt: &impl Abort, status: &[u8]) {
        assert_eq!(rt;
            self.printed.bytes(),
            self.expected.bytes(),
            "{}",
            self.label()
        );
        assert_eq!(rt;
            u64::from(self.status),
            number_of(10, status),
            "{}",
            self.label()
        );
        self.expected.cut(0);
        self.rows = self.rows.wrapping_add(1);
    }

    fn check(&mut self, rt: &impl Abort, kind: &[u8], rest: &[u8]) -> Result<(), Fail> {
        let (name, bytes) = word(rest);
        match kind {
            b"holds" => {
                let wanted = bytes_of(self.alloc, bytes)?;
                let found = self.found(name)?;
                assert_eq!(rt; found.bytes(), wanted.bytes(), "{}", self.label());
            }
            b"lacks" => {
                let found = self.found(name)?;
                assert_eq!(rt; found.bytes(), b"absent".as_slice(), "{}", self.label());
            }
            b"ends" => self.end(rt, rest),
            b"source" => self.source = source_of(self.alloc, rest)?,
            b"little" => self.good(rt, kind, rest)?,
            b"big" => self.good(rt, kind, rest)?,
            b"again" => self.again(rt, rest)?,
            b"bad" => self.bad(rt, rest)?,
            b"has" => self.has(rt, rest),
            b"rows" => assert_eq!(rt; self.rows, number_of(10, rest), "rows"),
            _ => assert!(rt; kind.is_empty(), "{}", self.label()),
        }
        Ok(())
    }

    fn line(&mut self, rt: &impl Abort, line: &[u8]) -> Result<(), Fail> {
        let (kind, rest) = word(line);
        match kind {
            b"#" => self.label = Text::of(self.alloc, rest)?,
            b"file" => {
                let (name, spelled) = word(rest);
                self.hold(name, bytes_of(self.alloc, spelled)?)?;
                self.go_round(rt, name)?;
            }
            b"object" => {
                let (order, rest) = word(rest);
                let (name, entries) = word(rest);
                self.hold(
                    name,
                    object(self.alloc, order == b"big".as_slice(), entries)?,
                )?;
                self.go_round(rt, name)?;
            }
            b"files" => self.failing_files.push(number_of(10, rest))?,
            b"sink" => self.failing_puts.push(number_of(10, rest))?,
            b"run" => self.run(rest)?,
            b"many" => self.many(rest)?,
            b"keep" => {
                let (name, from) = word(rest);
                let bytes = self.found(from)?;
                self.hold(name, bytes)?;
            }
            b"carry" => self.carry(rest)?,
            b">" => {
                self.expected.extend(rest)?;
                self.expected.push(b'\n')?;
            }
            _ => self.check(rt, kind, rest)?,
        }
        Ok(())
    }
}

/// The rows of one file.
fn all_lines(rt: &impl Abort, table: &mut Table, rows: &[u8]) -> Result<(), Fail> {
    for line in rows.split(|b| *b == b'\n') {
        table.line(rt, line)?;
    }
    Ok(())
}

#[test]
fn rows(rt: HostRuntime) -> Result<(), Fail> {
    let mut table = Table::new(rt.alloc());
    all_lines(&rt, &mut table, query_rows::ROWS)?;
    all_lines(&rt, &mut table, image_rows::ROWS)?;
    all_lines(&rt, &mut table, check_rows::ROWS)?;
    all_lines(&rt, &mut table, dump_rows::ROWS)?;
    all_lines(&rt, &mut table, as_rows::ROWS)?;
    all_lines(&rt, &mut table, link_rows::ROWS)?;
    all_lines(&rt, &mut table, ask_rows::ROWS)?;
    all_lines(&rt, &mut table, merge_rows::ROWS)
}

#[test]
fn a_real_file_is_queried(rt: HostRuntime) -> Result<(), Fail> {
    let alloc = rt.alloc();
    let name = Text::of(alloc, b"queried.o")?;
    let words = words_of(alloc, b"query queried.o tag 0 t")?;
    let stream = File::create(&rt, "queried.out")?;
    let mut files = DiskFiles::new(rt.clone()?);
    let _ = files.store(alloc, &name, &object(alloc, false, b"64:a.c 80:t:T1=-1;")?);
    let mut out = StreamSink::new(stream);
    assert_eq!(rt; run(alloc, &words, &mut files, &mut out), 0);
    match files.load(alloc, Text::of(alloc, b"queried.out")?, 1000) {
        Loaded::Bytes(printed) => assert_eq!(rt; printed.bytes(), b"1\n0 T t -1;\n".as_slice()),
        _ => assert!(rt; false, "what was printed cannot be loaded"),
    }
    fs::remove_file(&rt, "queried.o")?;
    fs::remove_file(&rt, "queried.out")?;
    Ok(())
}

#[test]
fn files_that_never_fail_are_queried(rt: HostRuntime) -> Result<(), Fail> {
    let alloc = rt.alloc();
    let words = words_of(alloc, b"query x.o tag 0 t")?;
    let mut files = SureFiles::new(alloc);
    files.hold(
        Text::of(alloc, b"x.o")?,
        object(alloc, true, b"64:a.c 80:t:T1=-1;")?,
    )?;
    let mut out = SureSink::new(alloc);
    assert_eq!(rt; run_surely(alloc, &words, &mut files, &mut out), 0);
    assert_eq!(rt; out.written(), b"1\n0 T t -1;\n".as_slice());
    Ok(())
}
