ghost use Rattle.std.specs.Prelude.{◌≡◌};
ghost use Rattle.chassis.specs.Points.{is_input_kind};

use tri_base::{Name, PointKind};

/// Why a point can't be added. Where several hold, the first is answered.
#[derive(Clone, Copy, Debug, PartialEq, Eq)]
pub enum ChassisFault {
    /// The point's range or tolerance isn't one that its kind may have.
    BadRange,
    /// There is a point with this name.
    Twice(Name),
    /// There are 256 inputs, for an input, or 256 outputs, for an output.
    Full,
    /// No memory was left.
    NoMemory,
}

/// Whether points of a kind are inputs; all others are outputs.
pub fn is_input(kind: PointKind) -> bool
    ensures { result ≡ is_input_kind kind }
{
    matches!(kind, PointKind::Di | PointKind::Ai)
}
