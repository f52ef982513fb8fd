use tri_base::Leg;

/// What each leg passes before each scan: whoever works the leg calls it before the leg's first put
/// of the scan. Scans count from 1. No clause rests on it.
pub trait Gate {
    /// A leg passes before a scan.
    fn pass(&self, leg: Leg, scan: u32);
}
