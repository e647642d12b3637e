use st_base::{Boxed as Box, List, Text};

/// A type number as a name within one unit: the file that gave it, 0 for the main source, and its number
/// there.
#[derive(Clone, Copy, Debug, Drop, PartialEq, Eq, PartialOrd, Ord, Hash)]
pub struct Key {
    pub file: u32,
    pub number: u32,
}

/// A type number as it is spelled: `n`, or `(file,number)`.
#[derive(Clone, Copy, Debug, Drop, PartialEq, Eq)]
pub enum Num {
    Plain(u32),
    Pair(u32, u32),
}

/// The bound of a range or the value of a choice: `J` for no bound, or digits with or without a minus
/// sign. Digits are kept as they stand.
#[derive(Debug, Drop)]
pub enum Numeral {
    Unbounded,
    /// Whether it is negative, and its digits.
    Digits(bool, Text),
}

/// What a tag names.
#[derive(Clone, Copy, Debug, Drop, PartialEq, Eq)]
pub enum Tag {
    Struct,
    Union,
    Enum,
}

/// A field of a structure or union: its name, its type, and its place and size in bits.
#[cycle(types)]
#[derive(Debug, Drop)]
pub struct Field {
    pub name: Text,
    pub tree: TypeTree,
    pub bit: u32,
    pub bits: u32,
}

/// A choice of an enumeration: its name and its value.
#[derive(Debug, Drop)]
pub struct Choice {
    pub name: Text,
    pub number: Numeral,
}

/// A type. Each has one spelling.
#[cycle(types)]
#[derive(Debug, Drop)]
pub enum TypeTree {
    /// A number, whose definition stands elsewhere.
    Ref(Num),
    /// A number and its definition.
    Def(Num, Box<TypeTree>),
    Pointer(Box<TypeTree>),
    Function(Box<TypeTree>),
    Const(Box<TypeTree>),
    Volatile(Box<TypeTree>),
    /// A range of a type between two bounds.
    Range(Box<TypeTree>, Numeral, Numeral),
    /// An array: the type of its index, the bounds of the index, the type of its items.
    Array(Box<TypeTree>, Numeral, Numeral, Box<TypeTree>),
    /// A structure of so many bytes.
    Struct(u32, List<Field>),
    /// A union of so many bytes.
    Union(u32, List<Field>),
    Enum(List<Choice>),
    /// A cross reference to a tag of this name.
    Cross(Tag, Text),
    /// A type with its size in bits.
    Sized(u32, Box<TypeTree>),
    /// A type that is known by a negative number.
    Builtin(u32),
    /// A floating point type, known by three numbers.
    Real(u32, u32, u32),
}

/// What a symbol names, by the letter after its colon.
#[derive(Clone, Copy, Debug, Drop, PartialEq, Eq)]
pub enum Descriptor {
    /// No letter: a variable on the stack.
    Stack,
    /// `f`: a function of this file alone.
    StaticFun,
    /// `F`: a global function.
    GlobalFun,
    /// `G`: a global variable.
    Global,
    /// `S`: a variable of this file alone.
    FileStatic,
    /// `V`: a static variable of a function.
    ProcStatic,
    /// `p`: a parameter.
    Param,
    /// `P`: a parameter in a register.
    RegParam,
    /// `r`: a variable in a register.
    Register,
    /// `a`: a parameter by reference in a register.
    RefRegParam,
    /// `v`: a parameter by reference.
    RefParam,
    /// `t`: a name of a type.
    Typedef,
    /// `T`: a tag of a structure, union or enumeration.
    Tag,
    /// `Tt`: both.
    TagTypedef,
}

/// A symbol: its name, its descriptor and its type.
#[derive(Debug, Drop)]
pub struct Symbol {
    pub name: Text,
    pub descriptor: Descriptor,
    pub tree: TypeTree,
}
