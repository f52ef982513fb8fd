/// Why a program has no layout.
#[derive(Clone, Copy, Debug, PartialEq, Eq)]
pub enum LayFault {
    /// Its tags have more words than the 4,096 that there are.
    TooManyWords {
        /// How many they have, or 18,446,744,073,709,551,615 where that is less.
        words: usize,
    },
    /// There is no memory for the layout.
    NoMemory,
}
