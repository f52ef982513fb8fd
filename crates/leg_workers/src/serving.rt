ghost use Rattle.std.specs.Prelude.{◌↔◌, IsTrue, ◌≡◌, false};
ghost use Rattle.leg_laws.specs.Configs.{need_of};
ghost use Rattle.leg_laws.specs.declared.need.Need.TheVariants.{Done};
ghost use Rattle.leg_workers.specs.Working.{IsKept};
ghost use Rattle.leg_workers.specs.Inner.Serving.{ServesNeed};

use crate::gate::Gate;
use engine_face::Engine;
use leg_core::LegRun;
use leg_laws::Need;
use std::sync::Wait;
use tribus::Post;

/// Serves the next need of a leg at its post, and passes the gate where that begins a scan. FALSE
/// where the leg is done; then nothing changes.
pub(crate) fn serve<E: Engine, G: Gate, R: Wait>(
    rt: &R,
    leg: &mut LegRun<E>,
    post: &mut Post,
    gate: &G,
) -> bool
    ensures served { ServesNeed (E.meaning leg.old.points) (need_of leg.old) (leg.old, post.old)
        (leg.new, post.new) }
    ensures none { result ≡ false → need_of leg.old ≡ Done }
{
    if let Some(scan) = leg.scan_begun() {
        gate.pass(leg.leg(), scan);
    }
    match leg.need() {
        Need::Put(side) => {
            let packet = leg.give(side);
            post.put(rt, side, packet);
        }
        Need::Take(side) => {
            let packet = post.take(rt, side);
            leg.accept(side, packet);
        }
        Need::Done => return false,
    }
    true
}
