ghost use Rattle.std.specs.Prelude.{◌≡◌};
ghost use Rattle.std.specs.List.{All};
ghost use Rattle.chassis.specs.Ranges.{HoldsZero};
ghost use Rattle.script_commands.specs.declared.script_command.ScriptCommand.TheVariants.{Step};
ghost use Rattle.script_commands.specs.Playing.{IsPlayed};

use crate::blocks::check_blocks;
use crate::script_command::{Output, Refused};
use engine_face::Engine;
use plant_script::Script;
use std::alloc::Global;
use step_play::{NotStepped, step_script};
use tri_base::Triple;

#[tactic(auto, using(crate::proofs::Firsts::text_builds))]
/// The report of three legs that play a script step by step, by its schedule and then the first
/// that can; or the first of the script's TEXT and SWAP blocks that the engine doesn't build; else
/// the first letter of its schedule whose leg can't step. The engines are over the script's points,
/// and each leg has one of its own.
pub fn play_step<E: Engine>(
    alloc: Global,
    engine: &E,
    engines: Triple<E>,
    script: &Script,
) -> Result<Output, Refused>
    requires zeros { All HoldsZero (E.points engine.now) }
    requires points { E.points engine.now ≡ script.now.value.points }
    requires points_a { E.points engines.a ≡ script.now.value.points }
    requires points_b { E.points engines.b ≡ script.now.value.points }
    requires points_c { E.points engines.c ≡ script.now.value.points }
    ensures { IsPlayed Step E.meaning script.now result }
{
    check_blocks(alloc, engine, script)?;
    match step_script(alloc, engine, engines, script) {
        Ok(stepped) => Ok(Output {
            text: stepped.text,
            uncalm: stepped.uncalm,
        }),
        Err(NotStepped::Stuck(letter)) => Err(Refused::Stuck { letter }),
        Err(NotStepped::NoMemory) => Err(Refused::NoMemory),
    }
}
