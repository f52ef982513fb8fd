use tri_base::Name;

/// A token that is always written the same way: a reserved word or a symbol.
#[derive(Clone, Copy, Debug, PartialEq, Eq)]
pub enum Fixed {
    Program,
    EndProgram,
    Var,
    VarExternal,
    EndVar,
    If,
    Then,
    Elsif,
    Else,
    EndIf,
    Case,
    Of,
    EndCase,
    For,
    To,
    By,
    Do,
    EndFor,
    Exit,
    Return,
    /// AND or `&`, which are one operator.
    And,
    Or,
    Xor,
    Not,
    Mod,
    True,
    False,
    Array,
    Bool,
    Int,
    Dint,
    RTrig,
    FTrig,
    Sr,
    Rs,
    Ctu,
    Ctd,
    Ton,
    Tof,
    Tp,
    Abs,
    Min,
    Max,
    Limit,
    Sel,
    IntToDint,
    DintToInt,
    /// `:=`
    Assign,
    /// `<>`
    Unequal,
    /// `<=`
    AtMost,
    /// `>=`
    AtLeast,
    /// `..`
    Range,
    /// `(`
    OpenParen,
    /// `)`
    CloseParen,
    /// `[`
    OpenBracket,
    /// `]`
    CloseBracket,
    Colon,
    Semicolon,
    Comma,
    Dot,
    Plus,
    Minus,
    /// `*`
    Times,
    /// `/`
    Divide,
    /// `=`
    Equals,
    Less,
    Greater,
}

/// What a token is.
#[derive(Clone, Copy, Debug, PartialEq, Eq)]
pub enum TokenKind {
    /// A name, in capitals.
    Name(Name),
    /// A number, 0 to 2,147,483,648.
    Number(u32),
    /// A reserved word or a symbol.
    Fixed(Fixed),
}

/// A token, and the byte place in the text at which it begins.
#[derive(Clone, Copy, Debug, PartialEq, Eq)]
pub struct Token {
    /// What it is.
    pub kind: TokenKind,
    /// The byte place of its first byte, from 0.
    pub place: usize,
}
