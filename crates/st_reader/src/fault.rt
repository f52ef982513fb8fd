use thiserror::Error;
use tri_base::LexCause;

/// Why a text or its tokens are no program.
#[derive(Debug, Drop, Error)]
pub enum ReadFault {
    /// No token begins at this byte place.
    #[error("at byte {place}: {cause:?}")]
    Lex { place: usize, cause: LexCause },
    /// At this token the nesting becomes 65.
    #[error("at token {token}: nested too deep")]
    TooDeep { token: usize },
    /// No program goes on with this token, or with the end where it is the number of tokens.
    #[error("at token {token}: no program goes on so")]
    Syntax { token: usize },
    #[error("no memory")]
    NoMemory,
}
