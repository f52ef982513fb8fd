use thiserror::Error;
use tri_base::TypeFault;

/// Why a program is not checked as well typed.
#[derive(Debug, Drop, Error)]
pub enum CheckFault {
    /// The first typing rule that it breaks.
    #[error("at byte {}: {:?}", .0.place, .0.cause)]
    Fault(TypeFault),
    #[error("no memory")]
    NoMemory,
}
