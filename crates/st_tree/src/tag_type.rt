use function_blocks::Kind as Simple;

/// What a tag is: one word, an array of words with its bounds, or a function block.
#[derive(Clone, Copy, Debug, PartialEq, Eq)]
pub enum TagType {
    Bool,
    Int,
    Dint,
    /// An array, from the low bound to the high one.
    Array {
        element: Simple,
        low: i64,
        high: i64,
    },
    RTrig,
    FTrig,
    Sr,
    Rs,
    Ctu,
    Ctd,
    Ton,
    Tof,
    Tp,
}
