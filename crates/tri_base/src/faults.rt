/// Why a byte of a program's text begins no token.
#[derive(Clone, Copy, Debug, PartialEq, Eq)]
pub enum LexCause {
    /// The byte is no white space and begins no name, number, symbol or comment.
    BadByte,
    /// A comment that begins here has no end.
    OpenComment,
    /// What begins with a digit here is no number.
    BadNumber,
    /// The number that begins here is above 2,147,483,648.
    NumberTooLarge,
    /// The name that begins here has more than 32 bytes.
    NameTooLong,
}

/// Which typing rule a program breaks.
#[derive(Clone, Copy, Debug, PartialEq, Eq)]
pub enum TypeCause {
    /// A name in a statement is not declared.
    UnknownName,
    /// A name is declared again, or an input is named again.
    Twice,
    /// The chassis has no point of an external name.
    NoSuchPoint,
    /// An external name has another type than its point.
    PointKind,
    /// An expression, constant or tag has another type than asked for.
    WrongType,
    /// An input point is assigned or counted over.
    NotAssignable,
    /// The block has no such field or input.
    BadField,
    /// A function has another number of arguments.
    ArgumentCount,
    /// A loop counts by zero.
    ZeroStep,
    /// A loop's tag is set within its body.
    LoopTag,
    /// EXIT stands outside every loop.
    ExitOutside,
    /// A literal lies outside its type.
    LiteralRange,
}

/// A typing rule that is broken, and the byte of the program's text at which it is.
#[derive(Clone, Copy, Debug, PartialEq, Eq)]
pub struct TypeFault {
    /// The byte, counted from 0.
    pub place: usize,
    /// The rule.
    pub cause: TypeCause,
}
