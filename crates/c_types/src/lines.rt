//! The lines of a unit and the texts of types. One function appends one of them to the text.

ghost use Rattle.std.specs.Prelude.{◌≡◌, ◌++◌, ◌∷◌, [], replicate, OnOk};
ghost use Rattle.c_types.specs.Lines as spec;
ghost use Rattle.c_types.specs.Types as types;

use crate::ctype::{Declared, Qualifiers, Spelling, TypeNumber};
use st_base::{Memory, Text, put_number};

// ---- types

fn put_pair(out: &mut Text, file: u32, number: u32) -> Result<(), Memory>
    ensures { OnOk result (out.new ≡ out.old ++ types.number_text (record { file = file; number = number })) }
{
    out.push(b'(')?;
    put_number(u64::from(file), out)?;
    out.push(b',')?;
    put_number(u64::from(number), out)?;
    out.push(b')')
}

/// `(file,number)`.
pub fn put_type_number(out: &mut Text, number: TypeNumber) -> Result<(), Memory>
    ensures { OnOk result (out.new ≡ out.old ++ types.number_text number) }
{
    put_pair(out, number.file, number.number)
}

fn put_spelling(out: &mut Text, spelling: &Spelling) -> Result<(), Memory>
    ensures { OnOk result (out.new ≡ out.old ++ types.spelling_text spelling.now) }
{
    match spelling {
        Spelling::Numbered(number) => put_type_number(out, *number),
        Spelling::Body(text) => out.extend(text.bytes()),
    }
}

fn put_constant(out: &mut Text, constant: bool, volatile: bool) -> Result<(), Memory>
    ensures { OnOk result (out.new ≡ out.old ++ types.qualifiers_text (record { constant = constant; volatile = volatile })) }
{
    match (constant, volatile) {
        (true, true) => out.extend(b"kB"),
        (true, false) => out.extend(b"k"),
        (false, true) => out.extend(b"B"),
        (false, false) => Ok(()),
    }
}

fn put_qualifiers(out: &mut Text, qualifiers: Qualifiers) -> Result<(), Memory>
    ensures { OnOk result (out.new ≡ out.old ++ types.qualifiers_text qualifiers) }
{
    put_constant(out, qualifiers.constant, qualifiers.volatile)
}

fn put_stars(out: &mut Text, stars: u64) -> Result<(), Memory>
    ensures { OnOk result (out.new ≡ out.old ++ replicate stars 42) }
{
    for _star in 0..stars {
        out.push(b'*')?;
    }
    Ok(())
}

fn put_array(out: &mut Text, length: u32) -> Result<(), Memory>
    ensures { OnOk result (out.new ≡ out.old ++ types.array_text length) }
{
    out.extend(b"ar(0,1);0;")?;
    put_number(u64::from(length.saturating_sub(1)), out)?;
    out.push(b';')
}

fn put_arrays(out: &mut Text, lengths: &[u32]) -> Result<(), Memory>
    ensures { OnOk result (out.new ≡ out.old ++ types.arrays_text lengths.now) }
{
    for length in lengths {
        put_array(out, *length)?;
    }
    Ok(())
}

/// A declared type.
pub fn put_declared(out: &mut Text, declared: &Declared) -> Result<(), Memory>
    ensures { OnOk result (out.new ≡ out.old ++ types.declared_text declared.now) }
{
    put_arrays(out, declared.lengths.items())?;
    put_stars(out, declared.stars)?;
    put_qualifiers(out, declared.qualifiers)?;
    put_spelling(out, &declared.base.spelling)
}

// ---- symbols of types

/// `.stabs "NAME:t(f,n)=`, with the descriptor between the colon and the number.
pub fn put_definition_front(
    out: &mut Text,
    name: &[u8],
    descriptor: &[u8],
    number: TypeNumber,
) -> Result<(), Memory>
    ensures { OnOk result (out.new ≡ out.old ++ (spec.stabs_front ++ spec.definition_front name.now descriptor.now number)) }
{
    out.extend(b".stabs \"")?;
    out.extend(name)?;
    out.push(b':')?;
    out.extend(descriptor)?;
    put_type_number(out, number)?;
    out.push(b'=')
}

/// The end of the line of a type or a tag.
pub fn put_symbol_end(out: &mut Text) -> Result<(), Memory>
    ensures { OnOk result (out.new ≡ out.old ++ spec.symbol_end) }
{
    out.extend(b"\",128,0,0,0\n")
}

/// The symbol that defines the type of a number.
pub fn put_definition(
    out: &mut Text,
    name: &[u8],
    descriptor: &[u8],
    number: TypeNumber,
    text: &[u8],
) -> Result<(), Memory>
    ensures { OnOk result (out.new ≡ out.old ++ spec.definition_line name.now descriptor.now number text.now) }
{
    put_definition_front(out, name, descriptor, number)?;
    out.extend(text)?;
    put_symbol_end(out)
}

/// The symbol of a typedef.
pub fn put_typedef(
    out: &mut Text,
    name: &[u8],
    number: TypeNumber,
    declared: &Declared,
) -> Result<(), Memory>
    ensures { OnOk result (out.new ≡ out.old ++ spec.definition_line name.now (116 ∷ []) number (types.declared_text declared.now)) }
{
    put_definition_front(out, name, b"t", number)?;
    put_declared(out, declared)?;
    put_symbol_end(out)
}

// ---- variables

fn put_common(out: &mut Text, name: &[u8], size: u32) -> Result<(), Memory>
    ensures { OnOk result (out.new ≡ out.old ++ spec.common_line name.now size) }
{
    out.extend(b".comm _")?;
    out.extend(name)?;
    out.push(b',')?;
    put_number(u64::from(size), out)?;
    out.push(b'\n')
}

/// The lines of a variable.
pub fn put_variable(
    out: &mut Text,
    name: &[u8],
    declared: &Declared,
    size: u32,
) -> Result<(), Memory>
    ensures { OnOk result (out.new ≡ out.old ++ spec.variable_lines name.now (types.declared_text declared.now) size) }
{
    put_common(out, name, size)?;
    out.extend(b".stabs \"")?;
    out.extend(name)?;
    out.extend(b":G")?;
    put_declared(out, declared)?;
    out.extend(b"\",32,0,0,0\n")
}

fn put_local_common(out: &mut Text, name: &[u8], size: u32) -> Result<(), Memory>
    ensures { OnOk result (out.new ≡ out.old ++ spec.local_common_line name.now size) }
{
    out.extend(b".lcomm _")?;
    out.extend(name)?;
    out.push(b',')?;
    put_number(u64::from(size), out)?;
    out.push(b'\n')
}

fn put_static_symbol(out: &mut Text, name: &[u8], declared: &Declared) -> Result<(), Memory>
    ensures { OnOk result (out.new ≡ out.old ++ spec.static_line name.now (types.declared_text declared.now)) }
{
    out.extend(b".stabs \"")?;
    out.extend(name)?;
    out.extend(b":S")?;
    put_declared(out, declared)?;
    out.extend(b"\",40,0,0,_")?;
    out.extend(name)?;
    out.push(b'\n')
}

/// The lines of a static variable.
pub fn put_static(out: &mut Text, name: &[u8], declared: &Declared, size: u32) -> Result<(), Memory>
    ensures { OnOk result (out.new ≡ out.old ++ spec.static_lines name.now (types.declared_text declared.now) size) }
{
    put_local_common(out, name, size)?;
    put_static_symbol(out, name, declared)
}

// ---- functions

fn put_global(out: &mut Text, is_static: bool, name: &[u8]) -> Result<(), Memory>
    ensures { OnOk result (out.new ≡ out.old ++ spec.global_line is_static name.now) }
{
    if is_static {
        return Ok(());
    }
    out.extend(b".globl _")?;
    out.extend(name)?;
    out.push(b'\n')
}

fn put_label(out: &mut Text, name: &[u8]) -> Result<(), Memory>
    ensures { OnOk result (out.new ≡ out.old ++ spec.label_line name.now) }
{
    out.push(b'_')?;
    out.extend(name)?;
    out.extend(b":\n")
}

fn put_function_front(out: &mut Text, is_static: bool, name: &[u8]) -> Result<(), Memory>
    ensures { OnOk result (out.new ≡ out.old ++ spec.function_front is_static name.now) }
{
    out.extend(b".stabs \"")?;
    out.extend(name)?;
    out.push(b':')?;
    out.push(if is_static { b'f' } else { b'F' })
}

fn put_function_end(out: &mut Text, name: &[u8], line: u64) -> Result<(), Memory>
    ensures { OnOk result (out.new ≡ out.old ++ spec.function_end name.now line) }
{
    out.extend(b"\",36,0,")?;
    put_number(line, out)?;
    out.extend(b",_")?;
    out.extend(name)?;
    out.push(b'\n')
}

/// The lines of a function.
pub fn put_function(
    out: &mut Text,
    is_static: bool,
    name: &[u8],
    declared: &Declared,
    line: u64,
) -> Result<(), Memory>
    ensures { OnOk result (out.new ≡ out.old ++ spec.function_lines is_static name.now line (types.declared_text declared.now)) }
{
    put_global(out, is_static, name)?;
    put_label(out, name)?;
    put_function_front(out, is_static, name)?;
    put_declared(out, declared)?;
    put_function_end(out, name, line)
}

/// The line of a parameter.
pub fn put_param(
    out: &mut Text,
    name: &[u8],
    declared: &Declared,
    offset: u32,
) -> Result<(), Memory>
    ensures { OnOk result (out.new ≡ out.old ++ spec.param_line name.now (types.declared_text declared.now) offset) }
{
    out.extend(b".stabs \"")?;
    out.extend(name)?;
    out.extend(b":p")?;
    put_declared(out, declared)?;
    out.extend(b"\",160,0,0,")?;
    put_number(u64::from(offset), out)?;
    out.push(b'\n')
}

#[tactic(auto, unfolding(crate::specs::Lines::local_mark))]
fn put_local_mark(out: &mut Text) -> Result<(), Memory>
    ensures { OnOk result (out.new ≡ out.old ++ spec.local_mark) }
{
    out.extend(b"\",128,0,0,-")
}

fn put_local_end(out: &mut Text, offset: u32) -> Result<(), Memory>
    ensures { OnOk result (out.new ≡ out.old ++ spec.local_end offset) }
{
    put_local_mark(out)?;
    put_number(u64::from(offset), out)?;
    out.push(b'\n')
}

/// The line of a local.
pub fn put_local(
    out: &mut Text,
    name: &[u8],
    declared: &Declared,
    offset: u32,
) -> Result<(), Memory>
    ensures { OnOk result (out.new ≡ out.old ++ spec.local_line name.now (types.declared_text declared.now) offset) }
{
    out.extend(b".stabs \"")?;
    out.extend(name)?;
    out.push(b':')?;
    put_declared(out, declared)?;
    put_local_end(out, offset)
}

/// The line of a local whose type takes a number.
pub fn put_numbered_local(
    out: &mut Text,
    name: &[u8],
    number: TypeNumber,
    declared: &Declared,
    offset: u32,
) -> Result<(), Memory>
    ensures { OnOk result (out.new ≡ out.old
        ++ spec.numbered_local_line name.now number (types.declared_text declared.now) offset) }
{
    put_definition_front(out, name, b"", number)?;
    put_declared(out, declared)?;
    put_local_end(out, offset)
}

#[tactic(auto, unfolding(crate::specs::Lines::block_begin_mark))]
fn put_block_begin_mark(out: &mut Text) -> Result<(), Memory>
    ensures { OnOk result (out.new ≡ out.old ++ spec.block_begin_mark) }
{
    out.extend(b".stabn 192,0,0,Lb")
}

#[tactic(auto, unfolding(crate::specs::Lines::from_start))]
fn put_from_start(out: &mut Text) -> Result<(), Memory>
    ensures { OnOk result (out.new ≡ out.old ++ spec.from_start) }
{
    out.extend(b"-Ltext0\n")
}

fn put_block_symbol(out: &mut Text, number: u64) -> Result<(), Memory>
    ensures { OnOk result (out.new ≡ out.old ++ spec.block_begin_line number) }
{
    put_block_begin_mark(out)?;
    put_number(number, out)?;
    put_from_start(out)
}

/// The lines where a block begins.
pub fn put_block_begin(out: &mut Text, number: u64) -> Result<(), Memory>
    ensures { OnOk result (out.new ≡ out.old ++ spec.block_begin_lines number) }
{
    put_block_symbol(out, number)?;
    out.extend(b"Lb")?;
    put_number(number, out)?;
    out.extend(b":\n")
}

#[tactic(auto, unfolding(crate::specs::Lines::block_end_mark))]
fn put_block_end_mark(out: &mut Text) -> Result<(), Memory>
    ensures { OnOk result (out.new ≡ out.old ++ spec.block_end_mark) }
{
    out.extend(b".stabn 224,0,0,Le")
}

fn put_block_end_symbol(out: &mut Text, number: u64) -> Result<(), Memory>
    ensures { OnOk result (out.new ≡ out.old ++ spec.block_end_line number) }
{
    put_block_end_mark(out)?;
    put_number(number, out)?;
    put_from_start(out)
}

/// The lines where a block ends.
pub fn put_block_end(out: &mut Text, number: u64) -> Result<(), Memory>
    ensures { OnOk result (out.new ≡ out.old ++ spec.block_end_lines number) }
{
    out.extend(b"Le")?;
    put_number(number, out)?;
    out.extend(b":\n")?;
    put_block_end_symbol(out, number)
}

#[tactic(auto, unfolding(crate::specs::Lines::line_mark))]
fn put_line_mark(out: &mut Text) -> Result<(), Memory>
    ensures { OnOk result (out.new ≡ out.old ++ spec.line_mark) }
{
    out.extend(b".stabd 68,0,")
}

#[tactic(auto, unfolding(crate::specs::Lines::code_line))]
fn put_code_line(out: &mut Text) -> Result<(), Memory>
    ensures { OnOk result (out.new ≡ out.old ++ spec.code_line) }
{
    out.extend(b"\n.long 0\n")
}

/// The lines of a statement.
pub fn put_statement(out: &mut Text, line: u64) -> Result<(), Memory>
    ensures { OnOk result (out.new ≡ out.old ++ spec.statement_lines line) }
{
    put_line_mark(out)?;
    put_number(line, out)?;
    put_code_line(out)
}
