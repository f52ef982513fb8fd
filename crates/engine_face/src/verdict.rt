use crate::refusal::Refusal;

/// What a leg makes of a scan's download.
#[derive(Clone, Copy, Debug, PartialEq, Eq)]
pub enum Verdict {
    /// The leg runs the new program from this scan on.
    Accepted,
    /// The leg goes on with its program.
    Refused(Refusal),
    /// The leg learns, and has no program to change.
    Learning,
}
