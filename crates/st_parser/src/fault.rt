use thiserror::Error;

/// Why tokens are no program.
#[derive(Debug, Drop, Error)]
pub enum ParseFault {
    /// No program goes on with this token, or with the end where it is the number of tokens.
    #[error("at token {token}: no program goes on so")]
    Syntax { token: usize },
    #[error("no memory")]
    NoMemory,
}
