ghost use Rattle.std.specs.Prelude.{◌≡◌, ◌^◌, ◌<◌, ◌≤◌, ◌∷◌, ◌+◌, drop, length, position, IfOk, IfErr, IfSome, OnOk, Some};
ghost use Rattle.std.specs.Option.{option_copied};
ghost use Rattle.std.specs.Prelude as prelude;
ghost use Rattle.strtab.specs.StringTable.{HasNoZero};
ghost use Rattle.asm_statements.specs.Fits.{NameFits, NamesFit, SumFits};
ghost use Rattle.asm_statements.specs.Operands as spec;
ghost use Rattle.asm_statements.specs.Scanning.{Reads, Refuses, Grows, IsSmall, pieces_at, pieces_behind};
ghost use Rattle.asm_statements.specs.declared.statement.Name.TheVariants.{Here};

use crate::number::Number;
use crate::scan::{Bad, begins_name};
use crate::statement::{Name, Sum};
use crate::token::{Kind, Token, Tokens};
use st_base::{List, Memory, Text};
use std::alloc::Global;

/// What a number over 4,294,967,295 counts as.
const LIMIT: u64 = 4294967296;

fn digit_value(b: u8) -> u64
    ensures value { result ≡ spec.digit_value b }
    ensures small { result ≤ 99 }
{
    match st_base::digit_value(b) {
        Some(value) => u64::from(value),
        None => 99,
    }
}

fn value_on(base: u64, bytes: &[u8]) -> Option<u64>
    requires { base ≤ 16 }
    ensures value { result ≡ spec.value_on base 0 bytes.now }
    ensures small { IfSome result (λ n. n ≤ 4294967296) }
{
    let mut value = 0;
    for b in bytes {
        let digit = digit_value(*b);
        if digit >= base {
            return None;
        }
        value = LIMIT.min(base * value + digit);
    }
    Some(value)
}

fn hex_value(bytes: &[u8]) -> Option<u64>
    ensures value { result ≡ spec.hex_value bytes.now }
    ensures small { IfSome result (λ n. n ≤ 4294967296) }
{
    match bytes {
        [] => None,
        _ => value_on(16, bytes),
    }
}

fn zero_value(bytes: &[u8]) -> Option<u64>
    ensures value { result ≡ spec.zero_value bytes.now }
    ensures small { IfSome result (λ n. n ≤ 4294967296) }
{
    match bytes {
        [] => Some(0),
        [b, rest @ ..] => {
            if *b == b'x' {
                hex_value(rest)
            } else {
                value_on(8, bytes)
            }
        }
    }
}

fn number_of(bytes: &[u8]) -> Option<u64>
    ensures value { result ≡ spec.number_of bytes.now }
    ensures small { IfSome result (λ n. n ≤ 4294967296) }
{
    match bytes {
        [] => None,
        [b, rest @ ..] => {
            if *b == b'0' {
                zero_value(rest)
            } else {
                value_on(10, bytes)
            }
        }
    }
}

fn is_name(word: &[u8]) -> bool
    ensures { result ≡ spec.is_name word.now }
{
    match word {
        [] => false,
        [b, ..] => begins_name(*b),
    }
}

fn is_dot(word: &[u8]) -> bool
    ensures { result ≡ spec.is_dot word.now }
{
    word == b".".as_slice()
}

fn put_name(minus: bool, name: Name, sum: &mut Sum) -> Result<(), Memory>
    requires { NameFits name }
    ensures value { OnOk result (sum.new ≡ spec.with_name minus name sum.old) }
    ensures grows { OnOk result (Grows sum.old sum.new) }
{
    if minus {
        sum.taken.push(name)
    } else {
        sum.added.push(name)
    }
}

fn put_number(minus: bool, number: u64, sum: &mut Sum)
    requires number { number ≤ 4294967296 }
    requires more { sum.old.more < 2 ^ 99 }
    requires less { sum.old.less < 2 ^ 99 }
    ensures value { sum.new ≡ spec.with_number minus number sum.old }
    ensures grows { Grows sum.old sum.new }
{
    if LIMIT <= number {
        sum.over = true;
    } else if minus {
        sum.less += u128::from(number);
    } else {
        sum.more += u128::from(number);
    }
}

fn put_word(alloc: Global, minus: bool, word: &[u8], sum: &mut Sum) -> Result<(), Bad>
    requires no_zero { HasNoZero word.now }
    requires more { sum.old.more < 2 ^ 99 }
    requires less { sum.old.less < 2 ^ 99 }
    ensures read { OnOk result (spec.with_word minus word.now sum.old ≡ Some sum.new) }
    ensures refused { IfErr result (λ e. Refuses e (spec.with_word minus word.now sum.old)) }
    ensures grows { OnOk result (Grows sum.old sum.new) }
{
    if is_name(word) {
        let name = Text::of(alloc, word)?;
        put_name(minus, Name::Named(name), sum)?;
        return Ok(());
    }
    if is_dot(word) {
        put_name(minus, Name::Here, sum)?;
        return Ok(());
    }
    match number_of(word) {
        Some(number) => {
            put_number(minus, number, sum);
            Ok(())
        }
        None => Err(Bad::Form),
    }
}

fn put_term(alloc: Global, minus: bool, token: &Token, sum: &mut Sum) -> Result<(), Bad>
    requires more { sum.old.more < 2 ^ 99 }
    requires less { sum.old.less < 2 ^ 99 }
    ensures read { OnOk result (spec.with_term minus token.now sum.old ≡ Some sum.new) }
    ensures refused { IfErr result (λ e. Refuses e (spec.with_term minus token.now sum.old)) }
    ensures grows { OnOk result (Grows sum.old sum.new) }
{
    match token.kind() {
        Kind::Word(word) => put_word(alloc, minus, word, sum),
        Kind::Str(_) => Err(Bad::Form),
        Kind::Mark(_) => Err(Bad::Form),
    }
}

fn sign(token: &Token) -> Option<bool>
    ensures { result ≡ spec.sign token.now }
{
    match token.kind() {
        Kind::Mark(mark) => {
            if *mark == b'+' {
                Some(false)
            } else if *mark == b'-' {
                Some(true)
            } else {
                None
            }
        }
        Kind::Word(_) => None,
        Kind::Str(_) => None,
    }
}

fn is_minus(token: &Token) -> bool
    ensures { result ≡ spec.is_minus token.now }
{
    match token.kind() {
        Kind::Mark(mark) => *mark == b'-',
        Kind::Word(_) => false,
        Kind::Str(_) => false,
    }
}

fn put_signed(alloc: Global, mark: &Token, token: &Token, sum: &mut Sum) -> Result<(), Bad>
    requires more { sum.old.more < 2 ^ 99 }
    requires less { sum.old.less < 2 ^ 99 }
    ensures read { OnOk result (spec.with_signed mark.now token.now sum.old ≡ Some sum.new) }
    ensures refused { IfErr result (λ e. Refuses e (spec.with_signed mark.now token.now sum.old)) }
    ensures grows { OnOk result (Grows sum.old sum.new) }
{
    match sign(mark) {
        Some(minus) => put_term(alloc, minus, token, sum),
        None => Err(Bad::Form),
    }
}

fn put_terms(alloc: Global, sum: &mut Sum, tokens: &[Token]) -> Result<(), Bad>
    requires more { sum.old.more ≤ 4294967296 }
    requires less { sum.old.less ≤ 4294967296 }
    requires added { NamesFit sum.old.added }
    ensures read { OnOk result (spec.terms sum.old tokens.now ≡ Some sum.new) }
    ensures refused { IfErr result (λ e. Refuses e (spec.terms sum.old tokens.now)) }
    ensures small { OnOk result (IsSmall sum.new) }
{
    let mut rest = tokens;
    while let [mark, token, more @ ..] = rest {
        put_signed(alloc, mark, token, sum)?;
        rest = more;
    }
    if rest.is_empty() {
        Ok(())
    } else {
        Err(Bad::Form)
    }
}

fn empty_sum(alloc: Global) -> Sum
    ensures { result ≡ spec.nothing }
{
    Sum {
        added: List::new(alloc),
        taken: List::new(alloc),
        more: 0,
        less: 0,
        over: false,
    }
}

/// `.` by itself.
pub(crate) fn here(alloc: Global) -> Result<Sum, Memory>
    ensures value { IfOk result (λ s. s ≡ spec.with_name prelude.false Here spec.nothing) }
    ensures fits { IfOk result (λ s. SumFits s) }
{
    let mut sum = empty_sum(alloc);
    put_name(false, Name::Here, &mut sum)?;
    Ok(sum)
}

fn sum_from(alloc: Global, minus: bool, tokens: &[Token]) -> Result<Sum, Bad>
    ensures read { Reads (λ s. s) result (spec.sum_from minus tokens.now) }
    ensures small { IfOk result (λ s. IsSmall s) }
{
    match tokens {
        [] => Err(Bad::Form),
        [token, rest @ ..] => {
            let mut sum = empty_sum(alloc);
            put_term(alloc, minus, token, &mut sum)?;
            put_terms(alloc, &mut sum, rest)?;
            Ok(sum)
        }
    }
}

/// The expression that tokens are. Takes memory for its names.
pub(crate) fn sum_of(alloc: Global, tokens: &[Token]) -> Result<Sum, Bad>
    ensures read { Reads (λ s. s) result (spec.sum_of tokens.now) }
    ensures small { IfOk result (λ s. IsSmall s) }
{
    match tokens {
        [] => Err(Bad::Form),
        [token, rest @ ..] => {
            if is_minus(token) {
                sum_from(alloc, true, rest)
            } else {
                sum_from(alloc, false, tokens)
            }
        }
    }
}

fn number_in(token: &Token) -> Result<u64, Bad>
    ensures read { Reads (λ n. n) result (spec.number_in token.now) }
    ensures small { IfOk result (λ n. n ≤ 4294967296) }
{
    match token.kind() {
        Kind::Word(word) => match number_of(word) {
            Some(number) => Ok(number),
            None => Err(Bad::Form),
        },
        Kind::Str(_) => Err(Bad::Form),
        Kind::Mark(_) => Err(Bad::Form),
    }
}

/// The number that tokens are, perhaps with a leading `-`. Takes no memory.
pub(crate) fn plain_of(tokens: &[Token]) -> Result<Number, Bad>
    ensures { Reads (λ n. n) result (spec.plain_of tokens.now) }
{
    match tokens {
        [] => Err(Bad::Form),
        [token] => Ok(Number::of(false, number_in(token)?)),
        [mark, token] => {
            if is_minus(mark) {
                Ok(Number::of(true, number_in(token)?))
            } else {
                Err(Bad::Form)
            }
        }
        [_, _, _, ..] => Err(Bad::Form),
    }
}

/// The number that tokens are. Takes no memory.
pub(crate) fn size_of(tokens: &[Token]) -> Result<u64, Bad>
    ensures { Reads (λ n. n) result (spec.size_of tokens.now) }
{
    match tokens {
        [] => Err(Bad::Form),
        [token] => number_in(token),
        [_, _, ..] => Err(Bad::Form),
    }
}

/// The name that a token is.
pub(crate) fn name_in(alloc: Global, token: &Token) -> Result<Text, Bad>
    ensures read { Reads (λ t. t) result (spec.name_in token.now) }
    ensures fits { IfOk result (λ t. HasNoZero t) }
{
    match token.kind() {
        Kind::Word(word) => {
            if is_name(word) {
                Ok(Text::of(alloc, word)?)
            } else {
                Err(Bad::Form)
            }
        }
        Kind::Str(_) => Err(Bad::Form),
        Kind::Mark(_) => Err(Bad::Form),
    }
}

/// The name that tokens are.
pub(crate) fn name_of(alloc: Global, tokens: &[Token]) -> Result<Text, Bad>
    ensures read { Reads (λ t. t) result (spec.name_of tokens.now) }
    ensures fits { IfOk result (λ t. HasNoZero t) }
{
    match tokens {
        [] => Err(Bad::Form),
        [token] => name_in(alloc, token),
        [_, _, ..] => Err(Bad::Form),
    }
}

fn string_in(alloc: Global, token: &Token) -> Result<Text, Bad>
    ensures { Reads (λ t. t) result (spec.string_in token.now) }
{
    match token.kind() {
        Kind::Word(_) => Err(Bad::Form),
        Kind::Str(text) => Ok(text.copy(alloc)?),
        Kind::Mark(_) => Err(Bad::Form),
    }
}

/// The string that tokens are.
pub(crate) fn string_of(alloc: Global, tokens: &[Token]) -> Result<Text, Bad>
    ensures { Reads (λ t. t) result (spec.string_of tokens.now) }
{
    match tokens {
        [] => Err(Bad::Form),
        [token] => string_in(alloc, token),
        [_, _, ..] => Err(Bad::Form),
    }
}

fn is_comma(token: &Token) -> bool
    ensures { result ≡ spec.is_comma token.now }
{
    match token.kind() {
        Kind::Mark(mark) => *mark == b',',
        Kind::Word(_) => false,
        Kind::Str(_) => false,
    }
}

fn comma_at(tokens: &[Token]) -> Option<usize>
    ensures value { result ≡ position spec.is_comma tokens.now }
    ensures within { IfSome result (λ at. at < length tokens.now) }
{
    tokens.iter().position(|token| is_comma(token))
}

/// The place of the comma that ends the first operand, if there is one. Takes no memory.
pub(crate) fn first_end(tokens: &[Token]) -> Option<usize>
    ensures value { spec.pieces tokens.now ≡ pieces_at tokens.now result }
    ensures within { IfSome result (λ at. at < length tokens.now) }
{
    comma_at(tokens)
}

/// The tokens after the comma at a place. Takes no memory.
pub(crate) fn behind<'t, 'a>(tokens: Tokens<'t, 'a>, at: usize) -> Tokens<'t, 'a>
    requires { at < length tokens.now }
    ensures value { result.now ≡ drop (at + 1) tokens.now }
    ensures shorter { length result.now < length tokens.now }
{
    &tokens[at + 1..]
}

/// The tokens before the first comma, and those after it, if there is one. Takes no memory.
pub(crate) fn cut<'t, 'a>(tokens: Tokens<'t, 'a>) -> (Tokens<'t, 'a>, Option<Tokens<'t, 'a>>)
    ensures value { spec.pieces tokens.now ≡ result.0.now ∷ pieces_behind (option_copied result.1) }
{
    match first_end(tokens) {
        None => (tokens, None),
        Some(at) => (&tokens[..at], Some(behind(tokens, at))),
    }
}
