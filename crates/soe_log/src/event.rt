/// That a discrete point has another value than before.
#[derive(Clone, Copy, Debug, PartialEq, Eq)]
pub struct Event {
    /// The scan, counted from 1.
    pub scan: u32,
    /// The milliseconds from the start up to and with that scan: the sum of the scan times.
    pub time: i64,
    /// The place of the point in the chassis, as `Chassis::find` gives it.
    pub point: usize,
    /// The value that it has from that scan on.
    pub value: bool,
}
