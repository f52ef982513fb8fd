use tri_base::{Text, Words};

/// A whole memory that was learned.
#[derive(Drop)]
pub struct Image {
    /// How many downloads were accepted.
    pub epoch: i64,
    /// The window of 64 words that a leg with this memory shows next, from 0 on.
    pub turn: i64,
    /// The program's text.
    pub text: Text,
    /// The program's words.
    pub words: Words,
}

/// What came of two packets.
#[derive(Drop)]
pub enum Progress {
    /// The two aren't one running result. Nothing is learned.
    Waiting,
    /// So many windows of a rotation are learned.
    Learned(u32),
    /// A whole rotation was seen. The learner has nothing learned again.
    Ready(Image),
}
