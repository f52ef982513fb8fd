ghost use Rattle.std.specs.Prelude.{◌≡◌};
ghost use Rattle.play_report.specs.Starved.{some_starve};

use engine_face::Engine;
use leg_core::LegRun;
use tri_base::Triple;

/// Whether a leg found no memory.
#[tactic(auto, unfolding(crate::specs::Starved::some_starve))]
pub fn some_leg_starves<E: Engine>(legs: &Triple<LegRun<E>>) -> bool
    ensures { result ≡ some_starve legs.now }
{
    legs.a.is_starved() || legs.b.is_starved() || legs.c.is_starved()
}
