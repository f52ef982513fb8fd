ghost use Rattle.script_commands.specs.Inner.Blocks.{AreBuilt};

use crate::script_command::Refused;
use engine_face::Engine;
use plant_script::{Script, first_refused};
use std::alloc::Global;
use tri_base::NoMemory;

/// The first of a script's TEXT and SWAP blocks that the engine doesn't build is refused.
pub(crate) fn check_blocks<E: Engine>(
    alloc: Global,
    engine: &E,
    script: &Script,
) -> Result<(), Refused>
    ensures { AreBuilt (E.meaning (E.points engine.now)) script.now result }
{
    match first_refused(alloc, script, engine) {
        Ok(None) => Ok(()),
        Ok(Some((line, refusal))) => Err(Refused::Block { line, refusal }),
        Err(NoMemory) => Err(Refused::NoMemory),
    }
}
