ghost use Rattle.std.specs.Prelude.{◌≡◌, ◌≤◌, Ok, Err};
ghost use Rattle.readers.specs.Readers as readers;
ghost use Rattle.readers.specs.Readers.{Gives};
ghost use Rattle.readers.specs.Words as words;
ghost use Rattle.stab_symbols.specs.declared.limits.TheConstants.{GREATEST_DEPTH};
ghost use Rattle.stab_grammar.specs.Grammar as spec;
ghost use Rattle.stab_symbols.specs.Shape as shape;

use readers::{
    Refusal, Stop, bad, byte_at, digits_at, is_digit, name_at, number_and, number_at, text_of,
};
use st_base::{Boxed as Box, List, Text};
use stab_symbols::{
    Choice, Descriptor, Field, GREATEST_DEPTH, GREATEST_FILE, GREATEST_NUMBER, MOST_DIGITS, Num,
    Numeral, Symbol, Tag, TypeTree, with_descriptors,
};
use std::alloc::Global;

// ---- the parts of a type that hold no type

/// `n`, or `(file,number)`.
#[tactic(auto, unfolding(crate::specs::Grammar::num_at))]
fn num_at(bytes: &[u8]) -> Result<(Num, &[u8]), Refusal>
    ensures { Gives (λ x. (x.0, x.1.now)) result (spec.num_at bytes.now) }
{
    match bytes {
        [] => Err(Refusal::At(Stop::End)),
        [b'(', rest @ ..] => {
            let (file, rest) = number_and(GREATEST_FILE, b',', rest)?;
            let (number, rest) = number_and(GREATEST_NUMBER, b')', rest)?;
            Ok((Num::Pair(file, number), rest))
        }
        _ => {
            let (number, rest) = number_at(GREATEST_NUMBER, bytes)?;
            Ok((Num::Plain(number), rest))
        }
    }
}

/// 1 to 40 digits, with the sign that stood before them.
fn signed_digits_at(
    alloc: Global,
    negative: bool,
    bytes: &[u8],
) -> Result<(Numeral, &[u8]), Refusal>
    ensures { Gives (λ x. (x.0, x.1.now)) result (readers.made (Numeral.Digits negative) spec.digits_at bytes.now) }
{
    let (digits, rest) = digits_at(MOST_DIGITS - 1, bytes)?;
    Ok((Numeral::Digits(negative, text_of(alloc, digits)?), rest))
}

/// `-` or not, and 1 to 40 digits.
#[tactic(auto, unfolding(crate::specs::Grammar::value_at))]
fn value_at(alloc: Global, bytes: &[u8]) -> Result<(Numeral, &[u8]), Refusal>
    ensures { Gives (λ x. (x.0, x.1.now)) result (spec.value_at bytes.now) }
{
    match bytes {
        [] => Err(Refusal::At(Stop::End)),
        [b'-', rest @ ..] => signed_digits_at(alloc, true, rest),
        _ => signed_digits_at(alloc, false, bytes),
    }
}

/// `J`, or a value.
#[tactic(auto, unfolding(crate::specs::Grammar::numeral_at))]
fn numeral_at(alloc: Global, bytes: &[u8]) -> Result<(Numeral, &[u8]), Refusal>
    ensures { Gives (λ x. (x.0, x.1.now)) result (spec.numeral_at bytes.now) }
{
    match bytes {
        [] => Err(Refusal::At(Stop::End)),
        [b'J', rest @ ..] => Ok((Numeral::Unbounded, rest)),
        _ => value_at(alloc, bytes),
    }
}

/// `numeral;`
fn numeral_and(alloc: Global, bytes: &[u8]) -> Result<(Numeral, &[u8]), Refusal>
    ensures { Gives (λ x. (x.0, x.1.now)) result (readers.closed spec.numeral_at 59 bytes.now) }
{
    let (numeral, rest) = numeral_at(alloc, bytes)?;
    let (_, rest) = byte_at(b';', rest)?;
    Ok((numeral, rest))
}

/// `name:`, the name of a symbol or of a cross reference.
fn name_and(alloc: Global, bytes: &[u8]) -> Result<(Text, &[u8]), Refusal>
    ensures { Gives (λ x. (x.0, x.1.now)) result (words.name_at shape.refused 58 bytes.now) }
{
    let (name, rest) = name_at(b':', 0, bytes)?;
    Ok((text_of(alloc, name)?, rest))
}

/// `name:`, the name of a field or choice.
fn item_name_and(alloc: Global, bytes: &[u8]) -> Result<(Text, &[u8]), Refusal>
    ensures { Gives (λ x. (x.0, x.1.now)) result (words.name_at shape.refused_item 58 bytes.now) }
{
    let (name, rest) = name_at(b':', b';', bytes)?;
    Ok((text_of(alloc, name)?, rest))
}

/// `name:value,`
#[tactic(auto, unfolding(crate::specs::Grammar::choice_at))]
fn choice_at(alloc: Global, bytes: &[u8]) -> Result<(Choice, &[u8]), Refusal>
    ensures { Gives (λ x. (x.0, x.1.now)) result (spec.choice_at bytes.now) }
{
    let (name, rest) = item_name_and(alloc, bytes)?;
    let (number, rest) = value_at(alloc, rest)?;
    let (_, rest) = byte_at(b',', rest)?;
    Ok((Choice { name, number }, rest))
}

/// Choices, and `;`.
fn choices_at(alloc: Global, bytes: &[u8]) -> Result<(List<Choice>, &[u8]), Refusal>
    ensures { Gives (λ x. (x.0, x.1.now)) result (readers.many 59 spec.choice_at bytes.now) }
{
    let mut choices = List::new(alloc);
    let mut rest = bytes;
    for _ in 0..bytes.len() {
        match rest {
            [] => return Err(Refusal::At(Stop::End)),
            [b, more @ ..] => {
                if *b == b';' {
                    return Ok((choices, more));
                }
                let (choice, after) = choice_at(alloc, rest)?;
                choices.push(choice)?;
                rest = after;
            }
        }
    }
    let (_, rest) = byte_at(b';', rest)?;
    Ok((choices, rest))
}

/// An enumeration, after `e`: the choices, `;`.
fn enum_at(alloc: Global, bytes: &[u8]) -> Result<(TypeTree, &[u8]), Refusal>
    ensures { Gives (λ x. (x.0, x.1.now)) result (readers.made TypeTree.Enum (readers.many 59 spec.choice_at) bytes.now) }
{
    let (choices, rest) = choices_at(alloc, bytes)?;
    Ok((TypeTree::Enum(choices), rest))
}

/// `s`, `u` or `e`.
#[tactic(auto, unfolding(crate::specs::Grammar::tag_at))]
fn tag_at(bytes: &[u8]) -> Result<(Tag, &[u8]), Refusal>
    ensures { Gives (λ x. (x.0, x.1.now)) result (spec.tag_at bytes.now) }
{
    match bytes {
        [] => Err(Refusal::At(Stop::End)),
        [b's', rest @ ..] => Ok((Tag::Struct, rest)),
        [b'u', rest @ ..] => Ok((Tag::Union, rest)),
        [b'e', rest @ ..] => Ok((Tag::Enum, rest)),
        _ => Err(bad(bytes)),
    }
}

/// A cross reference, after `x`: the tag's letter, `name:`
#[tactic(auto, unfolding(crate::specs::Grammar::cross_at))]
fn cross_at(alloc: Global, bytes: &[u8]) -> Result<(TypeTree, &[u8]), Refusal>
    ensures { Gives (λ x. (x.0, x.1.now)) result (readers.made spec.a_cross spec.cross_at bytes.now) }
{
    let (tag, rest) = tag_at(bytes)?;
    let (name, rest) = name_and(alloc, rest)?;
    Ok((TypeTree::Cross(tag, name), rest))
}

/// A type known by a negative number, after `-`: `n;`
fn builtin_at(bytes: &[u8]) -> Result<(TypeTree, &[u8]), Refusal>
    ensures { Gives (λ x. (x.0, x.1.now)) result (readers.made TypeTree.Builtin (readers.closed spec.plain_number 59) bytes.now) }
{
    let (number, rest) = number_and(GREATEST_NUMBER, b';', bytes)?;
    Ok((TypeTree::Builtin(number), rest))
}

/// A floating point type, after `R`: `a;b;c;`
#[tactic(auto, unfolding(crate::specs::Grammar::real_at))]
fn real_at(bytes: &[u8]) -> Result<(TypeTree, &[u8]), Refusal>
    ensures { Gives (λ x. (x.0, x.1.now)) result (readers.made spec.a_real spec.real_at bytes.now) }
{
    let (a, rest) = number_and(GREATEST_NUMBER, b';', bytes)?;
    let (b, rest) = number_and(GREATEST_NUMBER, b';', rest)?;
    let (c, rest) = number_and(GREATEST_NUMBER, b';', rest)?;
    Ok((TypeTree::Real(a, b, c), rest))
}

// ---- types, whose inner types may be so many types deep

/// A type in memory of its own.
#[cycle(parse)]
fn boxed_at(alloc: Global, depth: usize, bytes: &[u8]) -> Result<(Box<TypeTree>, &[u8]), Refusal>
    ensures { Gives (λ x. (x.0, x.1.now)) result (spec.type_at depth bytes.now) }
{
    let (tree, rest) = type_at(alloc, depth, bytes)?;
    Ok((Box::new(alloc, tree)?, rest))
}

/// `type;`, in memory of its own.
#[cycle(parse)]
fn boxed_and(alloc: Global, depth: usize, bytes: &[u8]) -> Result<(Box<TypeTree>, &[u8]), Refusal>
    ensures { Gives (λ x. (x.0, x.1.now)) result (readers.closed (spec.type_at depth) 59 bytes.now) }
{
    let (tree, rest) = boxed_at(alloc, depth, bytes)?;
    let (_, rest) = byte_at(b';', rest)?;
    Ok((tree, rest))
}

/// A pointer, after `*`: `type`
#[cycle(parse)]
fn pointer_at(alloc: Global, depth: usize, bytes: &[u8]) -> Result<(TypeTree, &[u8]), Refusal>
    ensures { Gives (λ x. (x.0, x.1.now)) result (readers.made TypeTree.Pointer (spec.type_at depth) bytes.now) }
{
    let (tree, rest) = boxed_at(alloc, depth, bytes)?;
    Ok((TypeTree::Pointer(tree), rest))
}

/// A function, by the type that it returns, after `f`: `type`
#[cycle(parse)]
fn function_at(alloc: Global, depth: usize, bytes: &[u8]) -> Result<(TypeTree, &[u8]), Refusal>
    ensures { Gives (λ x. (x.0, x.1.now)) result (readers.made TypeTree.Function (spec.type_at depth) bytes.now) }
{
    let (tree, rest) = boxed_at(alloc, depth, bytes)?;
    Ok((TypeTree::Function(tree), rest))
}

/// A constant type, after `k`: `type`
#[cycle(parse)]
fn const_at(alloc: Global, depth: usize, bytes: &[u8]) -> Result<(TypeTree, &[u8]), Refusal>
    ensures { Gives (λ x. (x.0, x.1.now)) result (readers.made TypeTree.Const (spec.type_at depth) bytes.now) }
{
    let (tree, rest) = boxed_at(alloc, depth, bytes)?;
    Ok((TypeTree::Const(tree), rest))
}

/// A volatile type, after `B`: `type`
#[cycle(parse)]
fn volatile_at(alloc: Global, depth: usize, bytes: &[u8]) -> Result<(TypeTree, &[u8]), Refusal>
    ensures { Gives (λ x. (x.0, x.1.now)) result (readers.made TypeTree.Volatile (spec.type_at depth) bytes.now) }
{
    let (tree, rest) = boxed_at(alloc, depth, bytes)?;
    Ok((TypeTree::Volatile(tree), rest))
}

/// A range, after `r`: `type;low;high;`
#[cycle(parse)]
#[tactic(auto, unfolding(crate::specs::Grammar::range_at))]
fn range_at(alloc: Global, depth: usize, bytes: &[u8]) -> Result<(TypeTree, &[u8]), Refusal>
    ensures { Gives (λ x. (x.0, x.1.now)) result (readers.made spec.a_range (spec.range_at (spec.type_at depth)) bytes.now) }
{
    let (tree, rest) = boxed_and(alloc, depth, bytes)?;
    let (low, rest) = numeral_and(alloc, rest)?;
    let (high, rest) = numeral_and(alloc, rest)?;
    Ok((TypeTree::Range(tree, low, high), rest))
}

/// An array, after `a`: `rindex;low;high;item`
#[cycle(parse)]
#[tactic(auto, unfolding(crate::specs::Grammar::array_at))]
fn array_at(alloc: Global, depth: usize, bytes: &[u8]) -> Result<(TypeTree, &[u8]), Refusal>
    ensures { Gives (λ x. (x.0, x.1.now)) result (readers.made spec.an_array (spec.array_at (spec.type_at depth)) bytes.now) }
{
    match bytes {
        [] => Err(Refusal::At(Stop::End)),
        [b'r', rest @ ..] => {
            let (index, rest) = boxed_and(alloc, depth, rest)?;
            let (low, rest) = numeral_and(alloc, rest)?;
            let (high, rest) = numeral_and(alloc, rest)?;
            let (item, rest) = boxed_at(alloc, depth, rest)?;
            Ok((TypeTree::Array(index, low, high, item), rest))
        }
        _ => Err(bad(bytes)),
    }
}

/// `name:type,bit,bits;`
#[cycle(parse)]
#[tactic(auto, unfolding(crate::specs::Grammar::field_at))]
fn field_at(alloc: Global, depth: usize, bytes: &[u8]) -> Result<(Field, &[u8]), Refusal>
    ensures { Gives (λ x. (x.0, x.1.now)) result (spec.field_at (spec.type_at depth) bytes.now) }
{
    let (name, rest) = item_name_and(alloc, bytes)?;
    let (tree, rest) = type_at(alloc, depth, rest)?;
    let (_, rest) = byte_at(b',', rest)?;
    let (bit, rest) = number_and(GREATEST_NUMBER, b',', rest)?;
    let (bits, rest) = number_and(GREATEST_NUMBER, b';', rest)?;
    Ok((
        Field {
            name,
            tree,
            bit,
            bits,
        },
        rest,
    ))
}

/// Fields, and `;`.
#[cycle(parse)]
fn fields_at(alloc: Global, depth: usize, bytes: &[u8]) -> Result<(List<Field>, &[u8]), Refusal>
    ensures { Gives (λ x. (x.0, x.1.now)) result (readers.many 59 (spec.field_at (spec.type_at depth)) bytes.now) }
{
    let mut fields = List::new(alloc);
    let mut rest = bytes;
    for _ in 0..bytes.len() {
        match rest {
            [] => return Err(Refusal::At(Stop::End)),
            [b, more @ ..] => {
                if *b == b';' {
                    return Ok((fields, more));
                }
                let (field, after) = field_at(alloc, depth, rest)?;
                fields.push(field)?;
                rest = after;
            }
        }
    }
    let (_, rest) = byte_at(b';', rest)?;
    Ok((fields, rest))
}

/// A structure or union, after `s` or `u`: the size, which takes all digits, the fields, `;`.
#[cycle(parse)]
#[tactic(auto, unfolding(crate::specs::Grammar::body_at))]
fn body_at(
    alloc: Global,
    depth: usize,
    bytes: &[u8],
) -> Result<((u32, List<Field>), &[u8]), Refusal>
    ensures { Gives (λ x. (x.0, x.1.now)) result (spec.body_at (spec.type_at depth) bytes.now) }
{
    let (size, rest) = number_at(GREATEST_NUMBER, bytes)?;
    match rest {
        [] => Err(Refusal::At(Stop::End)),
        [b, ..] => {
            if is_digit(*b) {
                return Err(bad(rest));
            }
            let (fields, rest) = fields_at(alloc, depth, rest)?;
            Ok(((size, fields), rest))
        }
    }
}

/// A structure, after `s`: the size, the fields, `;`.
#[cycle(parse)]
fn struct_at(alloc: Global, depth: usize, bytes: &[u8]) -> Result<(TypeTree, &[u8]), Refusal>
    ensures { Gives (λ x. (x.0, x.1.now)) result (readers.made spec.a_struct (spec.body_at (spec.type_at depth)) bytes.now) }
{
    let ((size, fields), rest) = body_at(alloc, depth, bytes)?;
    Ok((TypeTree::Struct(size, fields), rest))
}

/// A union, after `u`: the size, the fields, `;`.
#[cycle(parse)]
fn union_at(alloc: Global, depth: usize, bytes: &[u8]) -> Result<(TypeTree, &[u8]), Refusal>
    ensures { Gives (λ x. (x.0, x.1.now)) result (readers.made spec.a_union (spec.body_at (spec.type_at depth)) bytes.now) }
{
    let ((size, fields), rest) = body_at(alloc, depth, bytes)?;
    Ok((TypeTree::Union(size, fields), rest))
}

/// A type with its size, after `@`: `sbits;type`
#[cycle(parse)]
#[tactic(auto, unfolding(crate::specs::Grammar::sized_at))]
fn sized_at(alloc: Global, depth: usize, bytes: &[u8]) -> Result<(TypeTree, &[u8]), Refusal>
    ensures { Gives (λ x. (x.0, x.1.now)) result (readers.made spec.a_sized (spec.sized_at (spec.type_at depth)) bytes.now) }
{
    match bytes {
        [] => Err(Refusal::At(Stop::End)),
        [b's', rest @ ..] => {
            let (bits, rest) = number_and(GREATEST_NUMBER, b';', rest)?;
            let (tree, rest) = boxed_at(alloc, depth, rest)?;
            Ok((TypeTree::Sized(bits, tree), rest))
        }
        _ => Err(bad(bytes)),
    }
}

/// A number, and `=type` or not.
#[cycle(parse)]
#[tactic(auto, unfolding(crate::specs::Grammar::numbered_at))]
fn numbered_at(alloc: Global, depth: usize, bytes: &[u8]) -> Result<(TypeTree, &[u8]), Refusal>
    ensures { Gives (λ x. (x.0, x.1.now)) result (spec.numbered_at (spec.type_at depth) bytes.now) }
{
    let (number, rest) = num_at(bytes)?;
    match rest {
        [b'=', more @ ..] => {
            let (tree, more) = boxed_at(alloc, depth, more)?;
            Ok((TypeTree::Def(number, tree), more))
        }
        _ => Ok((TypeTree::Ref(number), rest)),
    }
}

/// A type, by its first byte.
#[cycle(parse)]
#[tactic(auto, unfolding(crate::specs::Grammar::level))]
fn level(alloc: Global, depth: usize, bytes: &[u8]) -> Result<(TypeTree, &[u8]), Refusal>
    ensures { Gives (λ x. (x.0, x.1.now)) result (spec.level (spec.type_at depth) bytes.now) }
{
    match bytes {
        [] => Err(Refusal::At(Stop::End)),
        [b'*', rest @ ..] => pointer_at(alloc, depth, rest),
        [b'f', rest @ ..] => function_at(alloc, depth, rest),
        [b'k', rest @ ..] => const_at(alloc, depth, rest),
        [b'B', rest @ ..] => volatile_at(alloc, depth, rest),
        [b'r', rest @ ..] => range_at(alloc, depth, rest),
        [b'a', rest @ ..] => array_at(alloc, depth, rest),
        [b's', rest @ ..] => struct_at(alloc, depth, rest),
        [b'u', rest @ ..] => union_at(alloc, depth, rest),
        [b'e', rest @ ..] => enum_at(alloc, rest),
        [b'x', rest @ ..] => cross_at(alloc, rest),
        [b'@', rest @ ..] => sized_at(alloc, depth, rest),
        [b'-', rest @ ..] => builtin_at(rest),
        [b'R', rest @ ..] => real_at(rest),
        _ => numbered_at(alloc, depth, bytes),
    }
}

/// Whether a type begins with the byte.
fn begins_type(b: u8) -> bool
    ensures { result ≡ spec.begins_type b }
{
    match b {
        b'*'
        | b'f'
        | b'k'
        | b'B'
        | b'r'
        | b'a'
        | b's'
        | b'u'
        | b'e'
        | b'x'
        | b'@'
        | b'-'
        | b'R'
        | b'(' => true,
        _ => is_digit(b),
    }
}

/// Why no type is read where none may begin.
#[tactic(auto, unfolding(readers::specs::Readers::too_deep))]
fn too_deep(bytes: &[u8]) -> Refusal
    ensures { Gives (λ x. x) (Err result) (spec.no_type bytes.now) }
{
    match bytes {
        [] => Refusal::At(Stop::End),
        [b, ..] => {
            if begins_type(*b) {
                Refusal::At(Stop::Deep(bytes.len()))
            } else {
                bad(bytes)
            }
        }
    }
}

/// A type that may be so many types deep.
#[cycle(parse)]
#[tactic(auto, unfolding(crate::specs::Grammar::type_at))]
fn type_at(alloc: Global, depth: usize, bytes: &[u8]) -> Result<(TypeTree, &[u8]), Refusal>
    ensures { Gives (λ x. (x.0, x.1.now)) result (spec.type_at depth bytes.now) }
{
    if depth == 0 {
        return Err(too_deep(bytes));
    }
    level(alloc, depth - 1, bytes)
}

// ---- symbols

/// The type after a symbol descriptor.
fn described(
    alloc: Global,
    descriptor: Descriptor,
    bytes: &[u8],
) -> Result<((Descriptor, TypeTree), &[u8]), Refusal>
    ensures { Gives (λ x. (x.0, x.1.now)) result (readers.made (spec.described descriptor) (spec.type_at GREATEST_DEPTH) bytes.now) }
{
    let (tree, rest) = type_at(alloc, GREATEST_DEPTH, bytes)?;
    Ok(((descriptor, tree), rest))
}

/// A tag, after `T`: `t` or not, and the type.
fn tagged(alloc: Global, bytes: &[u8]) -> Result<((Descriptor, TypeTree), &[u8]), Refusal>
    ensures { Gives (λ x. (x.0, x.1.now)) result (spec.tagged_at (spec.type_at GREATEST_DEPTH) bytes.now) }
{
    match bytes {
        [b't', rest @ ..] => described(alloc, Descriptor::TagTypedef, rest),
        _ => described(alloc, Descriptor::Tag, bytes),
    }
}

/// A symbol without a descriptor: its type begins with a digit, `(` or `-`.
fn stack(alloc: Global, bytes: &[u8]) -> Result<((Descriptor, TypeTree), &[u8]), Refusal>
    ensures { Gives (λ x. (x.0, x.1.now)) result (spec.stack_at (spec.type_at GREATEST_DEPTH) bytes.now) }
{
    match bytes {
        [] => Err(Refusal::At(Stop::End)),
        [b, ..] => {
            if is_digit(*b) || *b == b'(' || *b == b'-' {
                return described(alloc, Descriptor::Stack, bytes);
            }
            Err(bad(bytes))
        }
    }
}

// A `match` on the bytes after the colon of a symbol, by the letter that begins them.
macro_rules! reading {
    ($alloc:expr, $bytes:expr; in $($name:ident $letter:literal,)*) => {
        match $bytes {
            [] => Err(Refusal::At(Stop::End)),
            $([$letter, rest @ ..] => described($alloc, Descriptor::$name, rest),)*
            [b'T', rest @ ..] => tagged($alloc, rest),
            _ => stack($alloc, $bytes),
        }
    };
}

/// The descriptor and the type, after the colon of a symbol.
#[tactic(auto, unfolding(crate::specs::Grammar::described_at))]
fn described_at(alloc: Global, bytes: &[u8]) -> Result<((Descriptor, TypeTree), &[u8]), Refusal>
    ensures { Gives (λ x. (x.0, x.1.now)) result (spec.described_at (spec.type_at GREATEST_DEPTH) bytes.now) }
{
    with_descriptors!(reading of alloc, bytes)
}

/// `name:`, the descriptor, the type.
#[tactic(auto, unfolding(crate::specs::Grammar::symbol_at))]
fn symbol_at(alloc: Global, bytes: &[u8]) -> Result<(Symbol, &[u8]), Refusal>
    ensures { Gives (λ x. (x.0, x.1.now)) result (spec.symbol_at bytes.now) }
{
    let (name, rest) = name_and(alloc, bytes)?;
    let ((descriptor, tree), rest) = described_at(alloc, rest)?;
    Ok((
        Symbol {
            name,
            descriptor,
            tree,
        },
        rest,
    ))
}

/// A text that is a symbol.
#[tactic(auto, unfolding(crate::specs::Grammar::whole_symbol))]
pub fn whole_symbol(alloc: Global, bytes: &[u8]) -> Result<Symbol, Refusal>
    ensures { Gives (λ x. x) result (spec.whole_symbol bytes.now) }
{
    let (symbol, rest) = symbol_at(alloc, bytes)?;
    if rest.len() != 0 {
        return Err(bad(rest));
    }
    Ok(symbol)
}
