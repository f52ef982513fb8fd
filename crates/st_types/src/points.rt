//! The points that tags of VAR_EXTERNAL stand for.

ghost use Rattle.std.specs.Prelude.{◌≡◌};
ghost use Rattle.st_tree.specs.Typing.Points as spec;

use chassis::{Chassis, is_input};
use function_blocks::Kind;
use tri_base::{Name, Point, PointKind};

/// The point with a name.
pub fn point_named(chassis: &Chassis, name: &Name) -> Option<Point>
    ensures { result ≡ spec.point_named chassis.now name.now }
{
    match chassis.find(name) {
        Some(place) => chassis.points().get(place).copied(),
        None => None,
    }
}

/// Whether a name is that of an input point.
#[tactic(auto, using(crate::proofs::Named::input_kind_is))]
pub fn is_input_point(chassis: &Chassis, name: &Name) -> bool
    ensures { result ≡ spec.is_input_point chassis.now name.now }
{
    match point_named(chassis, name) {
        Some(point) => is_input(point.kind),
        None => false,
    }
}

/// The type of a point.
pub fn kind_of_point(kind: PointKind) -> Kind
    ensures { result ≡ spec.kind_of_point kind }
{
    match kind {
        PointKind::Di | PointKind::Do => Kind::Bool,
        PointKind::Ai | PointKind::Ao => Kind::Int,
    }
}
