use tri_base::Side;

/// What a leg has to do next in a play.
#[derive(Clone, Copy, Debug, PartialEq, Eq)]
pub enum Need {
    /// To put a packet on a side.
    Put(Side),
    /// To take the packet that the neighbour on a side put for it.
    Take(Side),
    /// Nothing: the last scan is over.
    Done,
}
