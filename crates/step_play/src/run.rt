ghost use Rattle.std.specs.Prelude.{◌≡◌};
ghost use Rattle.step_play.specs.Inner.Played.{AreStarted, HaveStepped, IsWhy, StepsAll};

use crate::step_play::NotStepped;
use engine_face::Engine;
use leg_core::LegRun;
use lockstep::Lockstep;
use play_report::some_leg_starves;
use script_text::Script;
use tri_base::{Leg, Triple};

/// Three legs that were started on a script step by its schedule, then the first that can, until
/// all are done. Beside them the place, from 0, of a letter whose leg can't step there.
pub(crate) fn step_legs<E: Engine>(
    legs: Triple<LegRun<E>>,
    script: &Script,
) -> (Triple<LegRun<E>>, Option<usize>)
    requires { let v = script.now.value in AreStarted (E.meaning v.points) v legs }
    ensures { HaveStepped E.meaning script.now.value result.0 result.1 }
{
    let mut lockstep = Lockstep::start(legs);
    let stuck = step_all(&mut lockstep, script.schedule());
    (lockstep.finish(), stuck)
}

/// Why legs that stepped so have not played the script to its end; None where they have. A leg that
/// found no memory shows nothing of the play.
pub(crate) fn why_not<E: Engine>(
    legs: &Triple<LegRun<E>>,
    stuck: Option<usize>,
    script: &Script,
) -> Option<NotStepped>
    requires { HaveStepped E.meaning script.now.value legs.now stuck }
    ensures { IsWhy E.meaning script.now.value legs.now result }
{
    if some_leg_starves(legs) {
        return Some(NotStepped::NoMemory);
    }
    match stuck {
        Some(place) => {
            // A list has fewer letters than 64 bits count.
            let _letters = script.schedule();
            Some(NotStepped::Stuck(place as u64 + 1))
        }
        None => None,
    }
}

/// The legs step in the order of the letters, and then the first that can, until all are done. The
/// place, from 0, of a letter whose leg can't step there; the legs stand before it then.
fn step_all<E: Engine>(lockstep: &mut Lockstep<E>, letters: &[Leg]) -> Option<usize>
    ensures { StepsAll E.meaning lockstep.old lockstep.new letters.now result }
{
    match lockstep.follow(letters) {
        Some(place) => Some(place),
        None => {
            lockstep.run();
            None
        }
    }
}
