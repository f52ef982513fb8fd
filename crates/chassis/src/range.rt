ghost use Rattle.std.specs.Prelude.{◌≡◌, ◌↔◌, IsTrue};
ghost use Rattle.chassis.specs.Ranges.{Fits, fits_range};

use tri_base::{GREATEST_COUNT, LEAST_COUNT, Point, PointKind};

/// Whether a point's range and tolerance are those that its kind may have.
pub fn fits(point: &Point) -> bool
    ensures test { result ≡ fits_range point.now }
    ensures means { IsTrue result ↔ Fits point.now }
{
    match point.kind {
        PointKind::Di | PointKind::Do => {
            point.low == 0 && point.high == 1 && point.tolerance == 0
        }
        PointKind::Ai | PointKind::Ao => {
            LEAST_COUNT <= point.low
                && point.low <= 0
                && 0 <= point.high
                && point.high <= GREATEST_COUNT
                && 0 <= point.tolerance
                && point.tolerance <= 65_535
        }
    }
}
