/// Why tokens are read no further.
#[derive(Clone, Copy, Debug, PartialEq, Eq)]
pub enum Refusal {
    NoMemory,
    /// No program goes on, with so many tokens left.
    Left(usize),
}
