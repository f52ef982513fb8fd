use tri_base::{LexCause, Name, TypeFault};

/// Why a text is no program, or can't take the place of another. Where several hold, the first is
/// answered.
#[derive(Clone, Copy, Debug, PartialEq, Eq)]
pub enum Refusal {
    /// The text has more than 16,384 bytes.
    TooLarge,
    /// At this byte of the text no token begins.
    Lex { place: usize, cause: LexCause },
    /// This token, counted from 0, is the first that nests more than 64 deep.
    TooDeep { token: usize },
    /// No program goes on with this token, counted from 0; past the last one the text's end is
    /// meant.
    Syntax { token: usize },
    /// A typing rule is broken.
    Typing(TypeFault),
    /// The program's tags need more than 4,096 words; `words` is their number, or the type's
    /// greatest number where that is less.
    TooManyWords { words: usize },
    /// A scan may take more than 1,000,000 instructions; `cost` is their number, or the type's
    /// greatest number where that is less.
    TooLong { cost: i64 },
    /// A rename's old name is no tag of the old program, or its new name none of the new program.
    RenameUnknown(Name),
    /// Two renames have this old name or this new name.
    RenameTwice(Name),
    /// The new program declares this tag of the old one, or what it is renamed to, with another
    /// type.
    KindChanged(Name),
    /// No memory was left. No verdict has this refusal.
    NoMemory,
}
