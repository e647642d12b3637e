/// A directive of the language.
#[derive(Clone, Copy, Drop)]
pub enum Directive {
    Text,
    Data,
    Byte,
    Short,
    Long,
    Ascii,
    Asciz,
    Space,
    Align,
    Globl,
    Comm,
    Lcomm,
    Stabs,
    Stabn,
    Stabd,
    Entry,
    Machine,
    Bsize,
    Rel,
}
