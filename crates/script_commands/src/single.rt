ghost use Rattle.std.specs.Prelude.{◌≡◌, ◌++◌, None, OnOk};
ghost use Rattle.std.specs.List.{All};
ghost use Rattle.chassis.specs.Ranges.{HoldsZero};
ghost use Rattle.script_commands.specs.declared.script_command.ScriptCommand.TheVariants.{Single};
ghost use Rattle.script_commands.specs.Outputs.{single_output};
ghost use Rattle.script_commands.specs.Playing.{IsPlayed};
ghost use Rattle.script_commands.specs.Inner.Blocks.{HasBuilt};

use crate::script_command::{Output, Refused, SingleCommand};
use check_report::write_check;
use controller_report::{write_solo, write_solo_summary};
use engine_face::{Engine, Refusal};
use plant_script::{Script, first_refused_swap};
use std::alloc::Global;
use tri_base::{NoMemory, Text};

#[tactic(auto, using(crate::proofs::Firsts::text_builds))]
/// What a command of the one controller writes of a script; or the first of its TEXT and SWAP
/// blocks that the engine doesn't build. The engine is over the script's points.
pub fn play_single<E: Engine>(
    alloc: Global,
    command: SingleCommand,
    engine: &E,
    script: &Script,
) -> Result<Output, Refused>
    requires zeros { All HoldsZero (E.points engine.now) }
    requires points { E.points engine.now ≡ script.now.value.points }
    ensures { IsPlayed (Single command) E.meaning script.now result }
{
    let program = build_blocks(alloc, engine, script)?;
    let mut text = Text::new(alloc);
    match write(alloc, command, engine, script, program, &mut text) {
        Ok(()) => Ok(Output { text, uncalm: None }),
        Err(NoMemory) => Err(Refused::NoMemory),
    }
}

/// The program of a script's text, where all SWAP blocks build too; else the first of the TEXT and
/// SWAP blocks that the engine doesn't build.
fn build_blocks<E: Engine>(
    alloc: Global,
    engine: &E,
    script: &Script,
) -> Result<E::Program, Refused>
    ensures { HasBuilt E.text_of (E.meaning (E.points engine.now)) script.now result }
{
    let program = match engine.build(alloc, script.text()) {
        Ok(program) => program,
        Err(Refusal::NoMemory) => return Err(Refused::NoMemory),
        Err(refusal) => {
            let line = script.text_line();
            return Err(Refused::Block { line, refusal });
        }
    };
    match first_refused_swap(alloc, script, engine) {
        Ok(None) => Ok(program),
        Ok(Some((line, refusal))) => Err(Refused::Block { line, refusal }),
        Err(NoMemory) => Err(Refused::NoMemory),
    }
}

/// Adds what a command writes of a script whose text builds. The program is that of its text.
fn write<E: Engine>(
    alloc: Global,
    command: SingleCommand,
    engine: &E,
    script: &Script,
    program: E::Program,
    text: &mut Text,
) -> Result<(), NoMemory>
    requires program { E.text_of program ≡ script.now.value.text }
    requires zeros { All HoldsZero (E.points engine.now) }
    requires points { E.points engine.now ≡ script.now.value.points }
    requires builds { (E.meaning (E.points engine.now)).builds script.now.value.text ≡ None }
    ensures { OnOk result (text.new.list ≡ text.old.list
        ++ single_output command (E.meaning (E.points engine.now)) script.now.value) }
{
    match command {
        SingleCommand::Solo => write_solo(alloc, engine, script, program, text),
        SingleCommand::SoloSummary => write_solo_summary(alloc, engine, script, program, text),
        SingleCommand::Check => write_check(alloc, engine, script, program, text),
    }
}
