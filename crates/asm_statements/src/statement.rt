ghost use Rattle.std.specs.Prelude.{◌≡◌, ◌≤◌};
ghost use Rattle.asm_statements.specs.Directives as spec;

use crate::expression::Expression;
use crate::number::Number;
use st_base::{List, Text};

/// The segment that a statement is in.
#[derive(Clone, Copy, Drop)]
pub enum Part {
    Text,
    Data,
}

/// A name of an expression: `.`, or one that is written.
#[derive(Drop)]
pub enum Name {
    Here,
    Named(Text),
}

/// An expression: its added and its subtracted names, the sums of its added and of its subtracted numbers, and whether one of
/// its numbers is over 4,294,967,295.
#[derive(Drop)]
pub struct Sum {
    pub added: List<Name>,
    pub taken: List<Name>,
    pub more: u128,
    pub less: u128,
    pub over: bool,
}

/// A number, perhaps negative: `less` is taken from `more`.
#[derive(Clone, Copy, Drop)]
pub struct Plain {
    pub more: u64,
    pub less: u64,
}

/// The operands of a stab directive.
#[derive(Drop)]
pub struct Stab {
    pub name: Text,
    pub kind: Number,
    pub other: Number,
    pub desc: Number,
    pub value: Expression,
}

/// The operands of a relocation that is written.
#[derive(Clone, Copy, Drop)]
pub struct Rel {
    pub part: Part,
    pub address: u64,
    pub symbol: u64,
    pub flags: u64,
}

/// How many bytes a field has: one, two or four.
#[derive(Clone, Copy, Drop)]
pub enum Width {
    Byte,
    Short,
    Long,
}

/// What a statement is: a label, or a directive with one operand of its list.
#[derive(Drop)]
pub enum What {
    Label(Text),
    Switch(Part),
    Field(Width, Expression),
    Space(u64),
    Globl(Text),
    Comm(Text, u64),
    Lcomm(Text, u64),
    Stab(Stab),
    Bytes(Text),
    Align(u64),
    Entry(u64),
    Machine(u64),
    Bsize(u64),
    Rel(Rel),
}

/// A statement and its line.
#[derive(Drop)]
pub struct Statement {
    pub line: u64,
    pub what: What,
}

/// How many bytes a field of this width has.
pub fn size_of_width(width: Width) -> u128
    ensures value { result ≡ spec.size_of_width width }
    ensures small { result ≤ 4 }
{
    match width {
        Width::Byte => 1,
        Width::Short => 2,
        Width::Long => 4,
    }
}
