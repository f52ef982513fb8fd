ghost use Rattle.std.specs.Prelude.{◌≡◌};
ghost use Rattle.cause_effect.specs.Statements.{keyword_of, may_follow};

/// The keyword that begins a line.
#[derive(Clone, Copy, Debug, PartialEq, Eq)]
pub enum Keyword {
    /// `MATRIX`
    Matrix,
    /// `CAUSE`
    Cause,
    /// `EFFECT`
    Effect,
    /// `RESET`
    Reset,
    /// `LINK`
    Link,
    /// `END`
    End,
}

/// The keyword that a word is.
pub(crate) fn read_keyword(word: &[u8]) -> Option<Keyword>
    ensures { result ≡ keyword_of word.now }
{
    if word == b"LINK".as_slice() {
        Some(Keyword::Link)
    } else if word == b"CAUSE".as_slice() {
        Some(Keyword::Cause)
    } else if word == b"EFFECT".as_slice() {
        Some(Keyword::Effect)
    } else if word == b"RESET".as_slice() {
        Some(Keyword::Reset)
    } else if word == b"MATRIX".as_slice() {
        Some(Keyword::Matrix)
    } else {
        (word == b"END".as_slice()).then_some(Keyword::End)
    }
}

/// Whether a line with one keyword may stand directly behind a line with another, or behind
/// nothing.
pub(crate) fn follows(last: Option<Keyword>, next: Keyword) -> bool
    ensures { result ≡ may_follow last next }
{
    let Some(last) = last else {
        return matches!(next, Keyword::Matrix);
    };
    match next {
        Keyword::Matrix => false,
        Keyword::Cause => matches!(last, Keyword::Matrix | Keyword::Cause),
        Keyword::Effect => matches!(last, Keyword::Matrix | Keyword::Cause | Keyword::Effect),
        Keyword::Reset => matches!(last, Keyword::Matrix | Keyword::Cause | Keyword::Effect),
        Keyword::Link | Keyword::End => !matches!(last, Keyword::End),
    }
}
