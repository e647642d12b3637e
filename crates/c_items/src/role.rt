/// What a token is to the item it stands in.
#[derive(Clone, Copy, Drop)]
pub enum Role {
    /// A word or mark that says nothing by itself, as `typedef`, `=` or `[`.
    Quiet,
    /// The line of an include.
    Include,
    /// `const`.
    Const,
    /// `volatile`.
    Volatile,
    /// The words of a basic type.
    Basic,
    /// `void` as a type, or as the first word between the parentheses of a function.
    Void,
    /// The name of a typedef, as a type.
    Named,
    /// `struct` or `union`.
    Struct,
    /// The tag behind `struct` or `union`.
    Tag,
    /// The `{` of the body of a structure or union, behind its tag.
    Body,
    /// The `{` of the body of a structure or union without a tag.
    Nameless,
    /// The `}` of the body of a structure or union.
    BodyEnd,
    /// `enum`.
    Enum,
    /// The tag behind `enum`.
    EnumTag,
    /// The `{` of the choices of an enum, behind its tag.
    Choices,
    /// The `{` of the choices of an enum without a tag.
    NamelessChoices,
    /// The name of a choice.
    Choice,
    /// The `-` in front of the number of a choice.
    Minus,
    /// The number of a choice.
    Number,
    /// The `,` behind a choice.
    ChoiceEnd,
    /// The `}` behind the last choice.
    ChoicesEnd,
    /// `*`.
    Star,
    /// The name of a field, or of an `extern` variable.
    Declared,
    /// The name that a typedef, a variable or a function gives to the unit.
    GivenName,
    /// The name of a parameter.
    ParameterName,
    /// The name of a local.
    LocalName,
    /// The number of an array's length.
    Length,
    /// The `;` of a field.
    FieldEnd,
    /// The `;` of a local.
    LocalEnd,
    /// The `,` or `)` behind a parameter.
    ParameterEnd,
    /// The `)` behind `void`, of a function that takes nothing.
    NoParameters,
    /// The `;` of a typedef.
    TypedefEnd,
    /// The `;` of a variable without `static` or `extern`.
    VariableEnd,
    /// The `;` of a `static` variable.
    StaticEnd,
    /// The `;` of an `extern` variable.
    ExternEnd,
    /// The `;` right behind the body of a structure, union or enum that stands alone.
    Alone,
    /// The `(` behind the name of a function that is not static.
    Function,
    /// The `(` behind the name of a static function.
    StaticFunction,
    /// The `{` of a block, also of the one that is the function's.
    BlockBegin,
    /// The `}` of a block within a block.
    BlockEnd,
    /// The `}` of a function.
    FunctionEnd,
    /// The statement `;`.
    Empty,
}
