//! What makes an output of the bytes that a command reads.

ghost use Rattle.std.specs.Prelude.{◌≡◌, ◌≤◌, Ok, IfOk, List, length, ℕ};
ghost use Rattle.std.specs.List.{All};
ghost use Rattle.chassis.specs.Ranges.{HoldsZero};
ghost use Rattle.st_build.specs.StructuredText.{structured_text};
ghost use Rattle.script_commands.specs.Playing.{IsPlayed};
ghost use Rattle.tricon.specs.declared.command.Command.{Command};
ghost use Rattle.tricon.specs.CommandRuns.{script_limit};
ghost use Rattle.tricon.specs.Inner.Outcomes.{IsOutcome, IsScriptOf};

use crate::status::{RefusedCause, Status};
use cause_effect::{MatrixFault, ProgramFault, read_matrix, write_program};
use engine_face::Engine;
use plant_script::{Script, ScriptFault, read_script};
use script_commands::{Output, Refused, ScriptCommand, SingleCommand, play_single, play_step};
use st_build::StEngine;
use std::alloc::Global;
use tri_base::{NoMemory, Text, Triple};

/// What makes the output of a command.
pub(crate) trait Player {
    ghost use Rattle.std.specs.Prelude.{◌≤◌, length};
    ghost use Rattle.tricon.specs.declared.command.Command.{Command};
    ghost use Rattle.tricon.specs.CommandRuns.{script_limit};
    ghost use Rattle.tricon.specs.Inner.Outcomes.{IsOutcome};

    /// The command.
    ghost command: { Self → Command };

    /// What the command makes of bytes, or the status that tells why there is nothing.
    fn outcome(&self, alloc: Global, text: &Text) -> Result<Output, Status>
        requires { length text.now.list ≤ script_limit }
        ensures { IsOutcome (command self.now) text.now.list result };
}

/// For a command of the one controller.
#[derive(Drop)]
pub(crate) struct SinglePlayer {
    pub(crate) command: SingleCommand,
}

/// For `step`.
#[derive(Drop)]
pub(crate) struct StepPlayer {}

/// For `matrix`.
#[derive(Drop)]
pub(crate) struct MatrixPlayer {}

impl Player for SinglePlayer {
    ghost use Rattle.script_commands.specs.declared.script_command.ScriptCommand.TheVariants.{Single};
    ghost use Rattle.tricon.specs.declared.command.Command.TheVariants.{Script};

    ghost command = { λ p. Script (Single p.command) };

    #[tactic(auto, using(crate::proofs::Unspelled::unspelled))]
    fn outcome(&self, alloc: Global, text: &Text) -> Result<Output, Status> {
        let script = script_of(alloc, text)?;
        let Ok(engine) = engine_for(alloc, &script) else {
            return Err(Status::NoMemory);
        };
        let played = play_single(alloc, self.command, &engine, &script);
        told(ScriptCommand::Single(self.command), text, &script, played)
    }
}

impl Player for StepPlayer {
    ghost use Rattle.script_commands.specs.declared.script_command.ScriptCommand.TheVariants.{Step};
    ghost use Rattle.tricon.specs.declared.command.Command.TheVariants.{Script};

    ghost command = { λ p. Script Step };

    #[tactic(auto, using(crate::proofs::Unspelled::unspelled))]
    fn outcome(&self, alloc: Global, text: &Text) -> Result<Output, Status> {
        let script = script_of(alloc, text)?;
        let Ok(engine) = engine_for(alloc, &script) else {
            return Err(Status::NoMemory);
        };
        let Ok(engines) = engines_for(alloc, &script) else {
            return Err(Status::NoMemory);
        };
        let played = play_step(alloc, &engine, engines, &script);
        told(ScriptCommand::Step, text, &script, played)
    }
}

impl Player for MatrixPlayer {
    ghost use Rattle.tricon.specs.declared.command.Command.TheVariants.{Matrix};

    ghost command = { λ p. Matrix };

    fn outcome(&self, alloc: Global, text: &Text) -> Result<Output, Status> {
        let matrix = match read_matrix(alloc, text) {
            Ok(matrix) => matrix,
            Err(MatrixFault::At { line, cause }) => {
                return Err(Status::Refused {
                    line,
                    cause: RefusedCause::Matrix(cause),
                });
            }
            Err(MatrixFault::NoMemory) => return Err(Status::NoMemory),
        };
        let mut program = Text::new(alloc);
        match write_program(alloc, &matrix, &mut program) {
            Ok(()) => Ok(Output {
                text: program,
                uncalm: None,
            }),
            Err(ProgramFault::TooLarge { bytes }) => Err(Status::Refused {
                line: 1,
                cause: RefusedCause::MatrixTooLarge { bytes },
            }),
            Err(ProgramFault::NoMemory) => Err(Status::NoMemory),
        }
    }
}

// The script that a text spells, or the status that tells its first fault.
pub(crate) fn script_of(alloc: Global, text: &Text) -> Result<Script, Status>
    requires { length text.now.list ≤ script_limit }
    ensures { IsScriptOf text.now.list result }
{
    match read_script(alloc, text) {
        Ok(script) => {
            // What every script has, this one has.
            let _moments = script.moments();
            Ok(script)
        }
        Err(ScriptFault::At { line, cause }) => Err(Status::Refused {
            line,
            cause: RefusedCause::Script(cause),
        }),
        Err(ScriptFault::NoMemory) => Err(Status::NoMemory),
    }
}

// What a text comes to, where it spells a script, and this is what a command made of the script.
pub(crate) fn told(
    command: ScriptCommand,
    text: &Text,
    script: &Script,
    played: Result<Output, Refused>,
) -> Result<Output, Status>
    requires spelled { IsScriptOf text.now.list (Ok script.now) }
    requires played { IsPlayed command structured_text script.now played }
    ensures { IsOutcome (Command.Script command) text.now.list result }
{
    let _command = command;
    let _text = text;
    let _script = script;
    match played {
        Ok(output) => Ok(output),
        Err(Refused::Block { line, refusal }) => Err(Status::Refused {
            line,
            cause: RefusedCause::Program(refusal),
        }),
        Err(Refused::Stuck { letter }) => Err(Status::Stuck { index: letter }),
        Err(Refused::NoMemory) => Err(Status::NoMemory),
    }
}

// An engine over a script's points.
pub(crate) fn engine_for(alloc: Global, script: &Script) -> Result<StEngine, NoMemory>
    ensures points { IfOk result
        (λ engine. ⟦<StEngine as Engine>⟧.points engine ≡ script.now.value.points) }
    ensures zeros { IfOk result
        (λ engine. All HoldsZero (⟦<StEngine as Engine>⟧.points engine)) }
{
    StEngine::over(alloc, script.chassis().copy(alloc)?)
}

// An engine for each leg.
pub(crate) fn engines_for(alloc: Global, script: &Script) -> Result<Triple<StEngine>, NoMemory>
    ensures a { IfOk result
        (λ e. ⟦<StEngine as Engine>⟧.points e.a ≡ script.now.value.points) }
    ensures b { IfOk result
        (λ e. ⟦<StEngine as Engine>⟧.points e.b ≡ script.now.value.points) }
    ensures c { IfOk result
        (λ e. ⟦<StEngine as Engine>⟧.points e.c ≡ script.now.value.points) }
{
    let a = engine_for(alloc, script)?;
    let b = engine_for(alloc, script)?;
    let c = engine_for(alloc, script)?;
    Ok(Triple { a, b, c })
}
