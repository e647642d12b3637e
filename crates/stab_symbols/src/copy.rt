//! Copies of symbols, in memory of their own.

ghost use Rattle.std.specs.Prelude.{◌≡◌, IfOk};

use crate::tree::{Choice, Field, Numeral, Symbol, TypeTree};
use st_base::{Boxed as Box, List, Memory};
use std::alloc::Global;

pub(crate) fn copy_numeral(alloc: Global, bound: &Numeral) -> Result<Numeral, Memory>
    ensures { IfOk result (λ copied. copied ≡ bound.now) }
{
    match bound {
        Numeral::Unbounded => Ok(Numeral::Unbounded),
        Numeral::Digits(negative, digits) => Ok(Numeral::Digits(*negative, digits.copy(alloc)?)),
    }
}

fn copy_choice(alloc: Global, choice: &Choice) -> Result<Choice, Memory>
    ensures { IfOk result (λ copied. copied ≡ choice.now) }
{
    Ok(Choice {
        name: choice.name.copy(alloc)?,
        number: copy_numeral(alloc, &choice.number)?,
    })
}

pub(crate) fn copy_choices(alloc: Global, choices: &[Choice]) -> Result<List<Choice>, Memory>
    ensures { IfOk result (λ copied. copied ≡ choices.now) }
{
    let mut copied = List::new(alloc);
    for choice in choices {
        copied.push(copy_choice(alloc, choice)?)?;
    }
    Ok(copied)
}

#[cycle(copies)]
fn copy_field(alloc: Global, field: &Field) -> Result<Field, Memory>
    ensures { IfOk result (λ copied. copied ≡ field.now) }
{
    Ok(Field {
        name: field.name.copy(alloc)?,
        tree: copy_tree(alloc, &field.tree)?,
        bit: field.bit,
        bits: field.bits,
    })
}

#[cycle(copies)]
fn copy_fields(alloc: Global, fields: &[Field]) -> Result<List<Field>, Memory>
    ensures { IfOk result (λ copied. copied ≡ fields.now) }
{
    let mut copied = List::new(alloc);
    for field in fields {
        copied.push(copy_field(alloc, field)?)?;
    }
    Ok(copied)
}

#[cycle(copies)]
fn copy_boxed(alloc: Global, tree: &TypeTree) -> Result<Box<TypeTree>, Memory>
    ensures { IfOk result (λ copied. copied ≡ tree.now) }
{
    Ok(Box::new(alloc, copy_tree(alloc, tree)?)?)
}

#[cycle(copies)]
fn copy_tree(alloc: Global, tree: &TypeTree) -> Result<TypeTree, Memory>
    ensures { IfOk result (λ copied. copied ≡ tree.now) }
{
    Ok(match tree {
        TypeTree::Ref(num) => TypeTree::Ref(*num),
        TypeTree::Def(num, inner) => TypeTree::Def(*num, copy_boxed(alloc, inner.get())?),
        TypeTree::Pointer(inner) => TypeTree::Pointer(copy_boxed(alloc, inner.get())?),
        TypeTree::Function(inner) => TypeTree::Function(copy_boxed(alloc, inner.get())?),
        TypeTree::Const(inner) => TypeTree::Const(copy_boxed(alloc, inner.get())?),
        TypeTree::Volatile(inner) => TypeTree::Volatile(copy_boxed(alloc, inner.get())?),
        TypeTree::Range(inner, low, high) => TypeTree::Range(
            copy_boxed(alloc, inner.get())?,
            copy_numeral(alloc, low)?,
            copy_numeral(alloc, high)?,
        ),
        TypeTree::Array(index, low, high, item) => TypeTree::Array(
            copy_boxed(alloc, index.get())?,
            copy_numeral(alloc, low)?,
            copy_numeral(alloc, high)?,
            copy_boxed(alloc, item.get())?,
        ),
        TypeTree::Struct(size, fields) => {
            TypeTree::Struct(*size, copy_fields(alloc, fields.items())?)
        }
        TypeTree::Union(size, fields) => {
            TypeTree::Union(*size, copy_fields(alloc, fields.items())?)
        }
        TypeTree::Enum(choices) => TypeTree::Enum(copy_choices(alloc, choices.items())?),
        TypeTree::Cross(tag, name) => TypeTree::Cross(*tag, name.copy(alloc)?),
        TypeTree::Sized(bits, inner) => TypeTree::Sized(*bits, copy_boxed(alloc, inner.get())?),
        TypeTree::Builtin(number) => TypeTree::Builtin(*number),
        TypeTree::Real(first, second, third) => TypeTree::Real(*first, *second, *third),
    })
}

impl Symbol {
    /// A copy of the symbol, in memory of its own.
    pub fn copy(&self, alloc: Global) -> Result<Symbol, Memory>
        ensures { IfOk result (λ copied. copied ≡ self.now) }
    {
        Ok(Symbol {
            name: self.name.copy(alloc)?,
            descriptor: self.descriptor,
            tree: copy_tree(alloc, &self.tree)?,
        })
    }
}
