ghost use Rattle.std.specs.Prelude.{◌≡◌, IfOk};

use chassis::Chassis;
use std::alloc::Global;
use tag_wiring::PointMark;
use tri_base::NoMemory;

/// A chassis with the mark of its points.
#[derive(Drop)]
pub(crate) struct MarkedChassis {
    /// The points.
    pub(crate) chassis: Chassis,
    /// Their mark.
    pub(crate) mark: PointMark,
    // It is the mark of these points.
    ghost of_the_points: { mark ≡ chassis },
}

impl MarkedChassis {
    /// Marks the points of a chassis.
    pub(crate) fn of(alloc: Global, chassis: Chassis) -> Result<MarkedChassis, NoMemory>
        ensures { IfOk result (λ marked. marked.chassis ≡ chassis) }
    {
        let mark = PointMark::of(alloc, &chassis)?;
        Ok(MarkedChassis { chassis, mark })
    }
}
