ghost use Rattle.std.specs.Prelude.{◌≡◌, ◌≢◌, ℕ, List, Ok};
ghost use Rattle.test_tables.specs.Tables.{IsTold};

use crate::answer::{Answer, Odd};
use crate::given::Given;
use crate::words::{halves, plain, shown};
use st_base::{Memory, Text};
use std::alloc::Global;

/// The calls that the rows of a table make.
pub trait Calls {
    /// Makes a call with what a row gives, and writes its answer.
    fn answer(&mut self, call: &str, given: &Given, out: &mut Answer);
}

/// What is told of the rows that fail; nothing where none does.
#[derive(Drop)]
pub struct Told {
    text: Text,
    lost: bool,
}

impl Told {
    /// Nothing yet.
    pub fn new(alloc: Global) -> Told {
        Told {
            text: Text::new(alloc),
            lost: false,
        }
    }

    /// As a message shows it.
    pub fn shown(&self) -> &str {
        if self.lost {
            "out of memory"
        } else {
            shown(self.text.bytes())
        }
    }

    /// Out of memory.
    pub fn lose(&mut self)
        ensures { IsTold self.new }
    {
        self.lost = true;
    }

    fn line(&mut self, text: &[u8])
        ensures { IsTold self.new }
    {
        let told = self.text.extend(text);
        let ended = self.text.push(b'\n');
        if told.is_err() || ended.is_err() {
            self.lost = true;
        }
    }

    /// A row that fails, the line above it that says what it is about, and what is wrong.
    pub fn failed(&mut self, about: &[u8], row: &[u8], wrong: &[u8])
        ensures { IsTold self.new }
    {
        self.line(about);
        self.line(row);
        self.line(wrong);
    }

    /// What a row answers, beside what it says: where the two differ, or there is no answer, it is told, and nothing else is.
    pub fn compare(&mut self, about: &[u8], row: &[u8], answer: Result<Text, Odd>, said: &[u8])
        ensures kept { answer ≡ Ok said.now → self.new ≡ self.old }
        ensures told { answer ≢ Ok said.now → IsTold self.new }
        ensures stays { IsTold self.old → IsTold self.new }
    {
        match answer {
            Ok(answer) => {
                if answer.bytes() != said {
                    self.failed(about, row, answer.bytes());
                }
            }
            Err(Odd::Row) => self.failed(about, row, b"not written as its call wants"),
            Err(Odd::Memory) => self.lost = true,
        }
    }

    /// A row: its call is made, and the answer is compared.
    fn row<C: Calls>(
        &mut self,
        alloc: Global,
        calls: &mut C,
        lines: &[u8],
        about: &[u8],
        row: &[u8],
    )
        ensures { IsTold self.old → IsTold self.new }
    {
        match halves(row, b" -> ") {
            Some((asked, said)) => match plain(alloc, said) {
                Ok(said) => {
                    self.compare(
                        about,
                        row,
                        answer_of(alloc, calls, lines, asked),
                        said.bytes(),
                    );
                }
                Err(_) => self.lost = true,
            },
            None => self.failed(about, row, b"no arrow"),
        }
    }
}

/// What stands behind a call in a row, if the row makes this call.
fn input_of<'a>(row: &'a [u8], call: &[u8]) -> Option<&'a [u8]> {
    match row.strip_prefix(call) {
        Some([]) => Some(&row[..0]),
        Some([b' ', input @ ..]) => Some(input),
        _ => None,
    }
}

/// What the call of a row answers, of those that have a line.
fn answer_of<C: Calls>(
    alloc: Global,
    calls: &mut C,
    lines: &[u8],
    asked: &[u8],
) -> Result<Text, Odd> {
    for line in lines.split(|b| *b == b'\n') {
        if let Some((call, kinds)) = halves(line, b" : ") {
            if let Some(input) = input_of(asked, call) {
                return made(alloc, calls, call, kinds, input);
            }
        }
    }
    Err(Odd::Row)
}

/// Makes a call.
fn made<C: Calls>(
    alloc: Global,
    calls: &mut C,
    call: &[u8],
    kinds: &[u8],
    input: &[u8],
) -> Result<Text, Odd> {
    let given = Given::of(alloc, kinds, input)?;
    let mut out = Answer::new(alloc);
    calls.answer(shown(call), &given, &mut out);
    out.ended()
}

/// Makes the calls of a table, where `lines` says what words each call is given, and tells the rows that do not have the answer that they
/// say.
pub fn failed_rows<C: Calls>(alloc: Global, calls: &mut C, lines: &[u8], table: &[u8]) -> Told {
    let mut told = Told::new(alloc);
    let mut about = &table[..0];
    for line in table.split(|b| *b == b'\n') {
        match line {
            [] => about = line,
            [b'#', ..] => about = line,
            row => told.row(alloc, calls, lines, about, row),
        }
    }
    told
}
