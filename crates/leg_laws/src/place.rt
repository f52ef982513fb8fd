/// The eight places of a scan, in order: at each one a leg puts a packet or takes one.
#[derive(Clone, Copy, Debug, PartialEq, Eq)]
pub enum Place {
    /// It puts its readings on its left. Before that it does the lines on its state and takes the
    /// scan's download.
    PutLeftReadings,
    /// It puts its readings on its right.
    PutRightReadings,
    /// It takes the readings of its left neighbour.
    TakeLeftReadings,
    /// It takes the readings of its right neighbour. Then it votes, and runs its program.
    TakeRightReadings,
    /// It puts its result on its left.
    PutLeftResult,
    /// It puts its result on its right.
    PutRightResult,
    /// It takes the result of its left neighbour.
    TakeLeftResult,
    /// It takes the result of its right neighbour. Then it judges or learns, and makes its note.
    TakeRightResult,
}
