use crate::name::Name;

/// What a point of the chassis is.
#[derive(Clone, Copy, Debug, PartialEq, Eq)]
pub enum PointKind {
    /// A discrete input.
    Di,
    /// An analogue input.
    Ai,
    /// A discrete output.
    Do,
    /// An analogue output.
    Ao,
}

/// A point of the chassis. A discrete point goes from 0 to 1 with tolerance 0.
#[derive(Clone, Copy, Debug, PartialEq, Eq)]
pub struct Point {
    /// The name by which programs and scripts speak of it.
    pub name: Name,
    /// What it is.
    pub kind: PointKind,
    /// The least count.
    pub low: i64,
    /// The greatest count.
    pub high: i64,
    /// By how many counts a reading may differ from the vote before it counts as a disagreement.
    pub tolerance: i64,
}
