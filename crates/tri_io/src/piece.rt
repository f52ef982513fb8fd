// How many bytes a read asks for at most, and a put offers at most.
pub(crate) const PIECE: usize = 4096;
