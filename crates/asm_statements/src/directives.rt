ghost use Rattle.std.specs.Prelude.{◌≡◌, ◌^◌, ◌<◌, [], IfOk, IfErr, Some};
ghost use Rattle.strtab.specs.StringTable.{HasNoZero};
ghost use Rattle.asm_statements.specs.Directives as spec;
ghost use Rattle.asm_statements.specs.Fits.{SumFits};
ghost use Rattle.asm_statements.specs.Operands.{pieces};
ghost use Rattle.asm_statements.specs.Scanning.{Reads, Refuses, Puts, IsSmall};

use crate::directive::Directive;
use crate::expression::Expression;
use crate::operands::{
    behind, cut, first_end, here, name_of, plain_of, size_of, string_of, sum_of,
};
use crate::out::Out;
use crate::scan::Bad;
use crate::statement::{Name, Part, Rel, Stab, Sum, What, Width, size_of_width};
use crate::token::{Kind, Token, Tokens};
use st_base::Text;
use std::alloc::Global;

macro_rules! look_up {
    ($word:ident: $($text:literal => $directive:ident,)*) => {
        match $word {
            $(word if word == $text.as_slice() => Some(Directive::$directive),)*
            _ => None,
        }
    };
}

/// The directive of a word, if it is one. Takes no memory.
pub(crate) fn directive_of(word: &[u8]) -> Option<Directive>
    ensures { result ≡ spec.directive_of word.now }
{
    look_up! {
        word:
        b".text" => Text,
        b".data" => Data,
        b".byte" => Byte,
        b".short" => Short,
        b".long" => Long,
        b".ascii" => Ascii,
        b".asciz" => Asciz,
        b".space" => Space,
        b".p2align" => Align,
        b".globl" => Globl,
        b".comm" => Comm,
        b".lcomm" => Lcomm,
        b".stabs" => Stabs,
        b".stabn" => Stabn,
        b".stabd" => Stabd,
        b".entry" => Entry,
        b".machine" => Machine,
        b".bsize" => Bsize,
        b".rel" => Rel,
    }
}

// ---- how many operands there are

fn one_of<'t, 'a>(tokens: Tokens<'t, 'a>) -> Result<Tokens<'t, 'a>, Bad>
    ensures read { IfOk result (λ p. spec.one_of (pieces tokens.now) ≡ Some p.now) }
    ensures refused { IfErr result (λ e. Refuses e (spec.one_of (pieces tokens.now))) }
{
    match cut(tokens) {
        (piece, None) => Ok(piece),
        (_, Some(_)) => Err(Bad::Form),
    }
}

fn two_of<'t, 'a>(tokens: Tokens<'t, 'a>) -> Result<(Tokens<'t, 'a>, Tokens<'t, 'a>), Bad>
    ensures read { IfOk result (λ p. spec.two_of (pieces tokens.now) ≡ Some (p.0.now, p.1.now)) }
    ensures refused { IfErr result (λ e. Refuses e (spec.two_of (pieces tokens.now))) }
{
    match cut(tokens) {
        (_, None) => Err(Bad::Form),
        (piece, Some(rest)) => {
            let other = one_of(rest)?;
            Ok((piece, other))
        }
    }
}

fn three_of<'t, 'a>(
    tokens: Tokens<'t, 'a>,
) -> Result<(Tokens<'t, 'a>, Tokens<'t, 'a>, Tokens<'t, 'a>), Bad>
    ensures read { IfOk result (λ p. spec.three_of (pieces tokens.now) ≡ Some (p.0.now, p.1.now, p.2.now)) }
    ensures refused { IfErr result (λ e. Refuses e (spec.three_of (pieces tokens.now))) }
{
    match cut(tokens) {
        (_, None) => Err(Bad::Form),
        (first, Some(rest)) => {
            let (second, third) = two_of(rest)?;
            Ok((first, second, third))
        }
    }
}

fn four_of<'t, 'a>(
    tokens: Tokens<'t, 'a>,
) -> Result<
    (
        Tokens<'t, 'a>,
        Tokens<'t, 'a>,
        Tokens<'t, 'a>,
        Tokens<'t, 'a>,
    ),
    Bad,
>
    ensures read { IfOk result (λ p. spec.four_of (pieces tokens.now) ≡ Some (p.0.now, p.1.now, p.2.now, p.3.now)) }
    ensures refused { IfErr result (λ e. Refuses e (spec.four_of (pieces tokens.now))) }
{
    match cut(tokens) {
        (_, None) => Err(Bad::Form),
        (first, Some(rest)) => match cut(rest) {
            (_, None) => Err(Bad::Form),
            (second, Some(rest)) => {
                let (third, fourth) = two_of(rest)?;
                Ok((first, second, third, fourth))
            }
        },
    }
}

// ---- the operands of each directive

fn the_size(tokens: &[Token]) -> Result<u64, Bad>
    ensures { Reads (λ n. n) result (spec.the_size (pieces tokens.now)) }
{
    let piece = one_of(tokens)?;
    size_of(piece)
}

fn the_string(alloc: Global, tokens: &[Token]) -> Result<Text, Bad>
    ensures { Reads (λ t. t) result (spec.the_string (pieces tokens.now)) }
{
    let piece = one_of(tokens)?;
    string_of(alloc, piece)
}

fn name_and_size(alloc: Global, tokens: &[Token]) -> Result<(Text, u64), Bad>
    ensures read { Reads (λ p. p) result (spec.the_name_and_size (pieces tokens.now)) }
    ensures fits { IfOk result (λ p. HasNoZero p.0) }
{
    let (name, size) = two_of(tokens)?;
    let name = name_of(alloc, name)?;
    let size = size_of(size)?;
    Ok((name, size))
}

fn part_in(token: &Token) -> Result<Part, Bad>
    ensures { Reads (λ p. p) result (spec.part_in token.now) }
{
    match token.kind() {
        Kind::Word(word) => {
            if *word == b"text".as_slice() {
                Ok(Part::Text)
            } else if *word == b"data".as_slice() {
                Ok(Part::Data)
            } else {
                Err(Bad::Form)
            }
        }
        Kind::Str(_) => Err(Bad::Form),
        Kind::Mark(_) => Err(Bad::Form),
    }
}

fn part_of(tokens: &[Token]) -> Result<Part, Bad>
    ensures { Reads (λ p. p) result (spec.part_of tokens.now) }
{
    match tokens {
        [] => Err(Bad::Form),
        [token] => part_in(token),
        [_, _, ..] => Err(Bad::Form),
    }
}

fn rel_from(
    part: &[Token],
    address: &[Token],
    symbol: &[Token],
    flags: &[Token],
) -> Result<Rel, Bad>
    ensures { Reads (λ r. r) result (spec.rel_from part.now address.now symbol.now flags.now) }
{
    let part = part_of(part)?;
    let address = size_of(address)?;
    let symbol = size_of(symbol)?;
    let flags = size_of(flags)?;
    Ok(Rel {
        part,
        address,
        symbol,
        flags,
    })
}

fn stab_from(
    alloc: Global,
    name: Text,
    kind: &[Token],
    other: &[Token],
    desc: &[Token],
    value: &[Token],
) -> Result<Stab, Bad>
    ensures read { Reads (λ s. s) result (spec.stab_from name kind.now other.now desc.now value.now) }
    ensures fits { IfOk result (λ s. SumFits s.value) }
{
    let kind = plain_of(kind)?;
    let other = plain_of(other)?;
    let desc = plain_of(desc)?;
    let value = Expression::of(alloc, sum_of(alloc, value)?)?;
    Ok(Stab {
        name,
        kind,
        other,
        desc,
        value,
    })
}

fn stabd_from(alloc: Global, kind: &[Token], other: &[Token], desc: &[Token]) -> Result<Stab, Bad>
    ensures read { Reads (λ s. s) result (spec.stabd_from kind.now other.now desc.now) }
    ensures fits { IfOk result (λ s. SumFits s.value) }
{
    let kind = plain_of(kind)?;
    let other = plain_of(other)?;
    let desc = plain_of(desc)?;
    let value = Expression::of(alloc, here(alloc)?)?;
    Ok(Stab {
        name: Text::new(alloc),
        kind,
        other,
        desc,
        value,
    })
}

// ---- what each directive gives

fn put_switch(part: Part, tokens: &[Token], out: &mut Out) -> Result<(), Bad>
    ensures { Puts result out.old out.new (spec.switch_of part (pieces tokens.now)) }
{
    match one_of(tokens)? {
        [] => out.put(What::Switch(part)),
        [_, ..] => Err(Bad::Form),
    }
}

fn put_global(alloc: Global, tokens: &[Token], out: &mut Out) -> Result<(), Bad>
    ensures { Puts result out.old out.new (spec.one_name (pieces tokens.now)) }
{
    let piece = one_of(tokens)?;
    let name = name_of(alloc, piece)?;
    out.put(What::Globl(name))
}

fn put_ascii(alloc: Global, tokens: &[Token], out: &mut Out) -> Result<(), Bad>
    ensures { Puts result out.old out.new (spec.ascii_of (pieces tokens.now)) }
{
    let text = the_string(alloc, tokens)?;
    out.put(What::Bytes(text))
}

fn put_asciz(alloc: Global, tokens: &[Token], out: &mut Out) -> Result<(), Bad>
    ensures { Puts result out.old out.new (spec.asciz_of (pieces tokens.now)) }
{
    let mut text = the_string(alloc, tokens)?;
    text.push(0)?;
    out.put(What::Bytes(text))
}

fn put_stab(alloc: Global, name: Text, tokens: &[Token], out: &mut Out) -> Result<(), Bad>
    ensures { Puts result out.old out.new (spec.stab_with name (pieces tokens.now)) }
{
    let (kind, other, desc, value) = four_of(tokens)?;
    let stab = stab_from(alloc, name, kind, other, desc, value)?;
    out.put(What::Stab(stab))
}

fn put_stabs(alloc: Global, tokens: &[Token], out: &mut Out) -> Result<(), Bad>
    ensures { Puts result out.old out.new (spec.stab_of (pieces tokens.now)) }
{
    match cut(tokens) {
        (_, None) => Err(Bad::Form),
        (piece, Some(rest)) => {
            let name = string_of(alloc, piece)?;
            put_stab(alloc, name, rest, out)
        }
    }
}

fn put_stabd(alloc: Global, tokens: &[Token], out: &mut Out) -> Result<(), Bad>
    ensures { Puts result out.old out.new (spec.stabd_of (pieces tokens.now)) }
{
    let (kind, other, desc) = three_of(tokens)?;
    let stab = stabd_from(alloc, kind, other, desc)?;
    out.put(What::Stab(stab))
}

fn put_rel(tokens: &[Token], out: &mut Out) -> Result<(), Bad>
    ensures { Puts result out.old out.new (spec.rel_of (pieces tokens.now)) }
{
    let (part, address, symbol, flags) = four_of(tokens)?;
    let rel = rel_from(part, address, symbol, flags)?;
    out.put(What::Rel(rel))
}

// ---- fields

fn shift(back: u128, names: &[Name]) -> u128
    requires { back < 2 ^ 99 }
    ensures value { result ≡ spec.shift back names.now }
    ensures small { result < 2 ^ 99 }
{
    match names {
        [] => 0,
        [Name::Here, ..] => back,
        [Name::Named(_), ..] => 0,
    }
}

fn shifted(back: u128, sum: Sum) -> Sum
    requires back { back < 2 ^ 99 }
    requires small { IsSmall sum }
    ensures value { result ≡ spec.shifted back sum }
    ensures fits { SumFits result }
{
    let mut sum = sum;
    sum.less += shift(back, sum.added.items());
    sum.more += shift(back, sum.taken.items());
    sum
}

#[tactic(auto, using(crate::proofs::LineLemmas::whats_push))]
fn put_fields(alloc: Global, width: Width, tokens: &[Token], out: &mut Out) -> Result<(), Bad>
    ensures { Puts result out.old out.new (spec.fields width 0 (pieces tokens.now)) }
{
    let size = size_of_width(width);
    let mut rest = tokens;
    let mut back = 0u128;
    while let Some(at) = first_end(rest) {
        let sum = sum_of(alloc, &rest[..at])?;
        let value = Expression::of(alloc, shifted(back, sum))?;
        out.put(What::Field(width, value))?;
        back += size;
        rest = behind(rest, at);
    }
    let sum = sum_of(alloc, rest)?;
    let value = Expression::of(alloc, shifted(back, sum))?;
    out.put(What::Field(width, value))
}

/// Puts the statements that the operands of a directive give after those that were read. Refused where the operands do not parse.
/// Takes memory for the statements.
pub(crate) fn put_operands(
    alloc: Global,
    directive: Directive,
    tokens: &[Token],
    out: &mut Out,
) -> Result<(), Bad>
    ensures { Puts result out.old out.new (spec.operands directive (pieces tokens.now)) }
{
    match directive {
        Directive::Text => put_switch(Part::Text, tokens, out),
        Directive::Data => put_switch(Part::Data, tokens, out),
        Directive::Byte => put_fields(alloc, Width::Byte, tokens, out),
        Directive::Short => put_fields(alloc, Width::Short, tokens, out),
        Directive::Long => put_fields(alloc, Width::Long, tokens, out),
        Directive::Ascii => put_ascii(alloc, tokens, out),
        Directive::Asciz => put_asciz(alloc, tokens, out),
        Directive::Space => out.put(What::Space(the_size(tokens)?)),
        Directive::Align => out.put(What::Align(the_size(tokens)?)),
        Directive::Globl => put_global(alloc, tokens, out),
        Directive::Comm => {
            let (name, size) = name_and_size(alloc, tokens)?;
            out.put(What::Comm(name, size))
        }
        Directive::Lcomm => {
            let (name, size) = name_and_size(alloc, tokens)?;
            out.put(What::Lcomm(name, size))
        }
        Directive::Stabs => put_stabs(alloc, tokens, out),
        Directive::Stabn => put_stab(alloc, Text::new(alloc), tokens, out),
        Directive::Stabd => put_stabd(alloc, tokens, out),
        Directive::Entry => out.put(What::Entry(the_size(tokens)?)),
        Directive::Machine => out.put(What::Machine(the_size(tokens)?)),
        Directive::Bsize => out.put(What::Bsize(the_size(tokens)?)),
        Directive::Rel => put_rel(tokens, out),
    }
}
