use crate::leg::Leg;

/// What a leg makes of a scan's three results.
#[derive(Clone, Copy, Debug, PartialEq, Eq)]
pub enum Judged {
    /// Its own result equals both neighbours' results.
    Agrees,
    /// One neighbour's result differs from the other two.
    Accuses(Leg),
    /// Its own result differs from two equal ones: it has to learn anew.
    Minority,
    /// None of the other answers: two results are missing, or no two are equal.
    NoVote,
    /// It learns, and its neighbours' results were of no use.
    Waiting,
    /// It learns, and has so many windows.
    Learned(u32),
    /// It has learned all, and runs from the next scan on.
    Ready,
    /// What it learned is no program.
    Rejected,
}
