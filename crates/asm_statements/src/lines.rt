ghost use Rattle.std.specs.Prelude.{◌≡◌, ◌<◌, ◌≤◌, ◌∷◌, length, position, IfSome};
ghost use Rattle.std.specs.Option.{option_copied};
ghost use Rattle.st_base.specs.declared.fault.TheConstants.{LINE_SYNTAX};
ghost use Rattle.st_base.specs.Faults.{fault_at};
ghost use Rattle.asm_statements.specs.SourceLines.{ReadsSource};
ghost use Rattle.asm_statements.specs.SourceLines as spec;
ghost use Rattle.asm_statements.specs.Scanning.{Puts, lines_behind};

use crate::directives::{directive_of, put_operands};
use crate::operands::name_in;
use crate::out::{Out, Statements};
use crate::scan::{Bad, read_tokens};
use crate::statement::What;
use crate::token::{Kind, Token};
use st_base::{Fault, LINE_SYNTAX, List, Refused};
use std::alloc::Global;

fn put_directive(alloc: Global, word: &[u8], tokens: &[Token], out: &mut Out) -> Result<(), Bad>
    ensures { Puts result out.old out.new (spec.directive_with word.now tokens.now) }
{
    match directive_of(word) {
        Some(directive) => put_operands(alloc, directive, tokens, out),
        None => Err(Bad::Form),
    }
}

fn put_rest(alloc: Global, tokens: &[Token], out: &mut Out) -> Result<(), Bad>
    ensures { Puts result out.old out.new (spec.rest_of tokens.now) }
{
    match tokens {
        [] => Ok(()),
        [token, rest @ ..] => match token.kind() {
            Kind::Word(word) => put_directive(alloc, word, rest, out),
            Kind::Str(_) => Err(Bad::Form),
            Kind::Mark(_) => Err(Bad::Form),
        },
    }
}

fn is_colon(token: &Token) -> bool
    ensures { result ≡ spec.is_colon token.now }
{
    match token.kind() {
        Kind::Mark(mark) => *mark == b':',
        Kind::Word(_) => false,
        Kind::Str(_) => false,
    }
}

fn put_statements(alloc: Global, tokens: &[Token], out: &mut Out) -> Result<(), Bad>
    ensures { Puts result out.old out.new (spec.statements_of tokens.now) }
{
    let mut rest = tokens;
    while let [token, mark, more @ ..] = rest {
        if !is_colon(mark) {
            return put_rest(alloc, rest, out);
        }
        match name_in(alloc, token) {
            Ok(name) => {
                out.put(What::Label(name))?;
                rest = more;
            }
            Err(bad) => return Err(bad),
        }
    }
    put_rest(alloc, rest, out)
}

// The statements of a line, after those of the lines before it. The list of tokens is used again for each line.
fn read_line<'a>(
    alloc: Global,
    line: &'a [u8],
    tokens: &mut List<Token<'a>>,
    out: &mut Out,
) -> Result<(), Bad>
    ensures { Puts result out.old out.new (spec.line_of line.now) }
{
    read_tokens(alloc, line, tokens)?;
    put_statements(alloc, tokens.items(), out)
}

fn feed_at(bytes: &[u8]) -> Option<usize>
    ensures value { result ≡ position spec.is_feed bytes.now }
    ensures within { IfSome result (λ at. at < length bytes.now) }
{
    bytes.iter().position(|byte| *byte == b'\n')
}

// The first line, and what stands after its line feed, if it has one.
fn cut_line(bytes: &[u8]) -> (&[u8], Option<&[u8]>)
    ensures value { spec.lines_of bytes.now ≡ result.0.now ∷ lines_behind (option_copied result.1) }
    ensures behind { IfSome result.1 (λ x. length x.now < length bytes.now) }
{
    match feed_at(bytes) {
        None => (bytes, None),
        Some(at) => (&bytes[..at], Some(&bytes[at + 1..])),
    }
}

fn syntax_fault(line: u64) -> Fault
    ensures { result ≡ fault_at LINE_SYNTAX line }
{
    Fault {
        number: LINE_SYNTAX,
        place: line,
        within: 0,
    }
}

/// The statements of a source. Refused with `LINE_SYNTAX` at the first line that does not parse; the place is the number of that line,
/// counted from 1. Takes memory for the statements and for the tokens of a line.
pub fn read_source(alloc: Global, source: &[u8]) -> Result<Statements, Refused>
    ensures { ReadsSource result (spec.read_source source.now) }
{
    let mut out = Out {
        number: 1,
        statements: Statements::new(alloc),
    };
    let mut tokens = List::new(alloc);
    let mut rest = source;
    loop {
        let number = out.number;
        let (line, behind) = cut_line(rest);
        match read_line(alloc, line, &mut tokens, &mut out) {
            Ok(()) => {}
            Err(Bad::Form) => return Err(Refused::At(syntax_fault(number))),
            Err(Bad::Memory) => return Err(Refused::Memory),
        }
        match behind {
            None => return Ok(out.statements),
            Some(more) => {
                out.number += 1;
                rest = more;
            }
        }
    }
}
