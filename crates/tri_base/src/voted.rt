use crate::words::Words;

/// What a scan runs on: what the legs' votes over time and input points came to.
#[derive(Drop)]
pub struct Voted {
    /// The voted scan time, in milliseconds.
    pub dt: i64,
    /// The voted values, one for each input point in the order of the chassis.
    pub values: Words,
}
