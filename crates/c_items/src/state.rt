use crate::role::Role;

/// What the outermost specifier that is being read belongs to.
#[derive(Clone, Copy, Drop)]
pub enum Context {
    Typedef,
    /// A variable or function without `static` or `extern`, or a body alone.
    Plain,
    Static,
    Extern,
    Parameter,
    Local,
}

/// Where in an item the next token stands.
#[derive(Clone, Copy, Drop)]
pub enum Place {
    /// At the item's first token.
    Start,
    /// Where a specifier begins.
    Specifier,
    /// Behind `const`.
    Const,
    /// Behind `volatile`, where a type has to come.
    Volatile,
    /// Behind `struct` or `union`.
    Struct,
    /// Behind the tag of a structure or union.
    StructTag,
    /// Behind `enum`.
    Enum,
    /// Behind the tag of an enum.
    EnumTag,
    /// Where a choice begins.
    Choice,
    /// Behind the name of a choice.
    Chosen,
    /// Behind the `=` of a choice.
    Equal,
    /// Behind the `-` of a choice.
    Minus,
    /// Behind the number of a choice.
    Valued,
    /// Behind a field, where another or the `}` of the body comes.
    Fields,
    /// Behind a type, where stars and a name come.
    After,
    /// Behind the `}` of a body.
    Bodied,
    /// Behind the name that is declared.
    Named,
    /// Behind `[`.
    Length,
    /// Behind the number of a length.
    Lengthened,
    /// Behind `]`.
    Closed,
    /// Behind the `(` of a function.
    Parameters,
    /// Behind the `void` that is the first word between the parentheses of a function.
    Void,
    /// Behind the `)` of a function.
    Paren,
    /// In a block, where a local may begin.
    Locals,
    /// In a block, behind a statement.
    Statements,
}

/// The state of the machine that finds the end of an item: the place, what the specifier belongs to, and how many bodies and how many
/// blocks are open.
#[derive(Clone, Copy, Drop)]
pub struct State {
    pub place: Place,
    pub context: Context,
    pub bodies: u64,
    pub blocks: u64,
}

/// What a token does: no form allows it, it ends the item, or the item goes on. The last two say what the token is to the item.
#[derive(Clone, Copy, Drop)]
pub enum Next {
    Wrong,
    Done(Role),
    Go(Role, State),
}
