ghost use Rattle.std.specs.Prelude.{◌≡◌, ℕ, Bool, List, [], ◌∷◌, ◌++◌, ◌≤◌, length, take, decimal, OnOk, OnErr};
ghost use Rattle.stab_symbols.specs.declared.tree.Num.{Num as NumValue};
ghost use Rattle.stab_symbols.specs.SymbolSpelling as spec;
ghost use Rattle.stab_symbols.specs.Printing.{Grows, defined_text, type_text, field_text, fields_text, symbol_text, choices_text};

use crate::tree::{Choice, Descriptor, Field, Num, Numeral, Symbol, Tag, TypeTree};
use crate::with_descriptors;
use itoa::Buffer;
use st_base::{Memory, Text};

// ---- bytes, names and numbers

pub(crate) fn put_byte(byte: u8, out: &mut Text) -> Result<(), Memory>
    ensures ok { OnOk result (out.new ≡ out.old ++ byte ∷ []) }
    ensures grows { Grows out.old out.new }
{
    out.push(byte)
}

pub(crate) fn put_bytes(bytes: &[u8], out: &mut Text) -> Result<(), Memory>
    ensures ok { OnOk result (out.new ≡ out.old ++ bytes.now) }
    ensures grows { Grows out.old out.new }
{
    out.extend(bytes)
}

pub(crate) fn put_name_and(name: &Text, end: u8, out: &mut Text) -> Result<(), Memory>
    ensures ok { OnOk result (out.new ≡ out.old ++ (name.now ++ end ∷ [])) }
    ensures grows { Grows out.old out.new }
{
    put_bytes(name.bytes(), out)?;
    put_byte(end, out)
}

pub(crate) fn put_number(number: u32, out: &mut Text) -> Result<(), Memory>
    ensures ok { OnOk result (out.new ≡ out.old ++ decimal number) }
    ensures grows { Grows out.old out.new }
{
    let mut buffer = Buffer::new();
    put_bytes(buffer.format(number).as_bytes(), out)
}

pub(crate) fn put_number_and(number: u32, end: u8, out: &mut Text) -> Result<(), Memory>
    ensures ok { OnOk result (out.new ≡ out.old ++ (decimal number ++ end ∷ [])) }
    ensures grows { Grows out.old out.new }
{
    put_number(number, out)?;
    put_byte(end, out)
}

// ---- ways to write numbers

/// A way to write the numbers of a type.
pub(crate) trait NumberWriter {
    // the text of a number
    ghost number: { Self → NumValue → List ℕ };

    // whether the definition of a number is left out
    ghost hides: { Self → Bool };

    /// Appends a number.
    fn put(&self, num: &Num, out: &mut Text) -> Result<(), Memory>
        ensures ok { OnOk result (out.new ≡ out.old ++ number self.now num.now) }
        ensures grows { Grows out.old out.new };

    /// Whether the definition of a number is left out.
    fn hides_definitions(&self) -> bool
        ensures { result ≡ hides self.now };
}

/// Numbers as they are spelled, `n` or `(file,number)`.
#[derive(Drop)]
pub(crate) struct Spelled;

impl NumberWriter for Spelled {
    ghost use Rattle.std.specs.Prelude.{false};
    ghost use Rattle.stab_symbols.specs.SymbolSpelling.{num as spelled};

    ghost number = { λ _. spelled };

    ghost hides = { λ _. false };

    fn put(&self, num: &Num, out: &mut Text) -> Result<(), Memory> {
        match num {
            Num::Plain(number) => put_number(*number, out),
            Num::Pair(file, number) => {
                put_byte(b'(', out)?;
                put_number_and(*file, b',', out)?;
                put_number_and(*number, b')', out)
            }
        }
    }

    fn hides_definitions(&self) -> bool {
        false
    }
}

// ---- numerals

pub(crate) fn put_numeral_and(numeral: &Numeral, end: u8, out: &mut Text) -> Result<(), Memory>
    ensures ok { OnOk result (out.new ≡ out.old ++ (spec.numeral numeral.now ++ end ∷ [])) }
    ensures grows { Grows out.old out.new }
{
    match numeral {
        Numeral::Unbounded => put_byte(b'J', out)?,
        Numeral::Digits(negative, digits) => {
            if *negative {
                put_byte(b'-', out)?;
            }
            put_bytes(digits.bytes(), out)?;
        }
    }
    put_byte(end, out)
}

// ---- types, in the order of the forms

fn letter_of(tag: Tag) -> u8
    ensures { result ≡ spec.tag_letter tag }
{
    match tag {
        Tag::Struct => b's',
        Tag::Union => b'u',
        Tag::Enum => b'e',
    }
}

fn put_choices(choices: &[Choice], out: &mut Text) -> Result<(), Memory>
    ensures ok { OnOk result (out.new ≡ out.old ++ choices_text choices.now) }
    ensures grows { Grows out.old out.new }
{
    for choice in choices {
        put_name_and(&choice.name, b':', out)?;
        put_numeral_and(&choice.number, b',', out)?;
    }
    put_byte(b';', out)
}

#[cycle(print)]
fn put_field<W: NumberWriter>(field: &Field, writer: &W, out: &mut Text) -> Result<(), Memory>
    ensures ok { OnOk result (out.new ≡ out.old ++ field_text (W.number writer.now) (W.hides writer.now) field.now) }
    ensures grows { Grows out.old out.new }
{
    put_name_and(&field.name, b':', out)?;
    put_type_and(&field.tree, writer, b',', out)?;
    put_number_and(field.bit, b',', out)?;
    put_number_and(field.bits, b';', out)
}

#[cycle(print)]
fn put_fields<W: NumberWriter>(fields: &[Field], writer: &W, out: &mut Text) -> Result<(), Memory>
    ensures ok { OnOk result (out.new ≡ out.old ++ fields_text (W.number writer.now) (W.hides writer.now) fields.now) }
    ensures grows { Grows out.old out.new }
{
    for field in fields {
        put_field(field, writer, out)?;
    }
    put_byte(b';', out)
}

// A structure or union.
#[cycle(print)]
fn put_members<W: NumberWriter>(
    letter: u8,
    size: u32,
    fields: &[Field],
    writer: &W,
    out: &mut Text,
) -> Result<(), Memory>
    ensures ok { OnOk result (out.new ≡ out.old ++ letter ∷ (decimal size ++ fields_text (W.number writer.now) (W.hides writer.now) fields.now)) }
    ensures grows { Grows out.old out.new }
{
    put_byte(letter, out)?;
    put_number(size, out)?;
    put_fields(fields, writer, out)
}

// A number and its definition, if that is not left out.
#[cycle(print)]
fn put_definition<W: NumberWriter>(
    num: &Num,
    body: &TypeTree,
    writer: &W,
    out: &mut Text,
) -> Result<(), Memory>
    ensures ok { OnOk result (out.new ≡ out.old ++ defined_text (W.hides writer.now) (W.number writer.now num.now) (type_text (W.number writer.now) (W.hides writer.now) body.now)) }
    ensures grows { Grows out.old out.new }
{
    writer.put(num, out)?;
    if writer.hides_definitions() {
        return Ok(());
    }
    put_behind(b'=', body, writer, out)
}

// A type after a letter.
#[cycle(print)]
fn put_behind<W: NumberWriter>(
    letter: u8,
    tree: &TypeTree,
    writer: &W,
    out: &mut Text,
) -> Result<(), Memory>
    ensures ok { OnOk result (out.new ≡ out.old ++ letter ∷ type_text (W.number writer.now) (W.hides writer.now) tree.now) }
    ensures grows { Grows out.old out.new }
{
    put_byte(letter, out)?;
    put_type(tree, writer, out)
}

#[cycle(print)]
fn put_type_and<W: NumberWriter>(
    tree: &TypeTree,
    writer: &W,
    end: u8,
    out: &mut Text,
) -> Result<(), Memory>
    ensures ok { OnOk result (out.new ≡ out.old ++ (type_text (W.number writer.now) (W.hides writer.now) tree.now ++ end ∷ [])) }
    ensures grows { Grows out.old out.new }
{
    put_type(tree, writer, out)?;
    put_byte(end, out)
}

// A type, its numbers written so.
#[cycle(print)]
fn put_type<W: NumberWriter>(tree: &TypeTree, writer: &W, out: &mut Text) -> Result<(), Memory>
    ensures ok { OnOk result (out.new ≡ out.old ++ type_text (W.number writer.now) (W.hides writer.now) tree.now) }
    ensures grows { Grows out.old out.new }
{
    match tree {
        TypeTree::Ref(num) => writer.put(num, out),
        TypeTree::Def(num, inner) => put_definition(num, inner.get(), writer, out),
        TypeTree::Pointer(inner) => put_behind(b'*', inner.get(), writer, out),
        TypeTree::Function(inner) => put_behind(b'f', inner.get(), writer, out),
        TypeTree::Const(inner) => put_behind(b'k', inner.get(), writer, out),
        TypeTree::Volatile(inner) => put_behind(b'B', inner.get(), writer, out),
        TypeTree::Range(inner, low, high) => {
            put_byte(b'r', out)?;
            put_type_and(inner.get(), writer, b';', out)?;
            put_numeral_and(low, b';', out)?;
            put_numeral_and(high, b';', out)
        }
        TypeTree::Array(index, low, high, item) => {
            put_bytes(b"ar", out)?;
            put_type_and(index.get(), writer, b';', out)?;
            put_numeral_and(low, b';', out)?;
            put_numeral_and(high, b';', out)?;
            put_type(item.get(), writer, out)
        }
        TypeTree::Struct(size, fields) => put_members(b's', *size, fields.items(), writer, out),
        TypeTree::Union(size, fields) => put_members(b'u', *size, fields.items(), writer, out),
        TypeTree::Enum(choices) => {
            put_byte(b'e', out)?;
            put_choices(choices.items(), out)
        }
        TypeTree::Cross(tag, name) => {
            put_byte(b'x', out)?;
            put_byte(letter_of(*tag), out)?;
            put_name_and(name, b':', out)
        }
        TypeTree::Sized(bits, inner) => {
            put_bytes(b"@s", out)?;
            put_number_and(*bits, b';', out)?;
            put_type(inner.get(), writer, out)
        }
        TypeTree::Builtin(number) => {
            put_byte(b'-', out)?;
            put_number_and(*number, b';', out)
        }
        TypeTree::Real(first, second, third) => {
            put_byte(b'R', out)?;
            put_number_and(*first, b';', out)?;
            put_number_and(*second, b';', out)?;
            put_number_and(*third, b';', out)
        }
    }
}

// ---- all of a text, or nothing

// Out of memory, keeps the first bytes alone.
fn undone(before: usize, printed: Result<(), Memory>, out: &mut Text) -> Result<(), Memory>
    requires { before ≤ length out.old }
    ensures same { result ≡ printed }
    ensures ok { OnOk result (out.new ≡ out.old) }
    ensures err { OnErr result (out.new ≡ take before out.old) }
{
    if printed.is_err() {
        out.cut(before);
    }
    printed
}

// Appends the text of a type, or changes nothing.
pub(crate) fn append_type<W: NumberWriter>(
    tree: &TypeTree,
    writer: &W,
    out: &mut Text,
) -> Result<(), Memory>
    ensures ok { OnOk result (out.new ≡ out.old ++ type_text (W.number writer.now) (W.hides writer.now) tree.now) }
    ensures err { OnErr result (out.new ≡ out.old) }
{
    let before = out.bytes().len();
    let printed = put_type(tree, writer, out);
    undone(before, printed, out)
}

/// Appends the spelling of a type. Out of memory, `out` stays as it was.
pub fn print_type(tree: &TypeTree, out: &mut Text) -> Result<(), Memory>
    ensures ok { OnOk result (out.new ≡ out.old ++ spec.print_of tree.now) }
    ensures err { OnErr result (out.new ≡ out.old) }
{
    append_type(tree, &Spelled, out)
}

// ---- symbols

// A `match` that gives the letters of a descriptor.
macro_rules! letters {
    ($descriptor:expr; in $($name:ident $letter:literal,)*) => {
        match $descriptor {
            $(Descriptor::$name => &[$letter],)*
            Descriptor::Stack => b"",
            Descriptor::Tag => b"T",
            Descriptor::TagTypedef => b"Tt",
        }
    };
}

/// The letters of a symbol descriptor, none for a variable on the stack. Takes no memory.
pub fn letters_of(descriptor: Descriptor) -> &'static [u8]
    ensures { result.now ≡ spec.letters descriptor }
{
    with_descriptors!(letters of descriptor)
}

pub(crate) fn put_symbol<W: NumberWriter>(
    symbol: &Symbol,
    writer: &W,
    out: &mut Text,
) -> Result<(), Memory>
    ensures ok { OnOk result (out.new ≡ out.old ++ symbol_text (W.number writer.now) (W.hides writer.now) symbol.now) }
    ensures grows { Grows out.old out.new }
{
    put_name_and(&symbol.name, b':', out)?;
    put_bytes(letters_of(symbol.descriptor), out)?;
    put_type(&symbol.tree, writer, out)
}

/// Appends the spelling of a symbol. Out of memory, `out` stays as it was.
pub fn print(symbol: &Symbol, out: &mut Text) -> Result<(), Memory>
    ensures ok { OnOk result (out.new ≡ out.old ++ spec.print_symbol symbol.now) }
    ensures err { OnErr result (out.new ≡ out.old) }
{
    let before = out.bytes().len();
    let printed = put_symbol(symbol, &Spelled, out);
    undone(before, printed, out)
}
