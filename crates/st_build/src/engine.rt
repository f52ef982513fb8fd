ghost use Rattle.std.specs.Prelude.{◌≡◌, IfOk};

use crate::building::build_program;
use crate::changing::{carry_words, change_refusal};
use crate::marked_chassis::MarkedChassis;
use crate::program::{StProgram, layout_over};
use crate::scanning::scan_program;
use chassis::Chassis;
use engine_face::{Engine, Refusal};
use std::alloc::Global;
use tri_base::{Name, NoMemory, Text, Touched, Words};

/// The engine of Structured Text over the points of a chassis.
#[derive(Drop)]
pub struct StEngine {
    points: MarkedChassis,
}

impl StEngine {
    /// An engine over the points of a chassis.
    pub fn over(alloc: Global, chassis: Chassis) -> Result<StEngine, NoMemory>
        ensures { IfOk result (λ engine. ⟦<StEngine as Engine>⟧.points engine ≡ chassis) }
    {
        let points = MarkedChassis::of(alloc, chassis)?;
        Ok(StEngine { points })
    }
}

impl Engine for StEngine {
    ghost use Rattle.st_build.specs.StructuredText.{structured_text};
    ghost use Rattle.st_build.specs.Inner.MeaningLaws.{lawful};

    type Program = StProgram;

    ghost points = { λ engine. engine.points.chassis };

    ghost text_of = { λ program. program.text };

    ghost meaning = { structured_text };

    ghost lawful = { lawful };

    fn build(&self, alloc: Global, text: &Text) -> Result<StProgram, Refusal> {
        build_program(alloc, &self.points.chassis, text)
    }

    fn change(
        &self,
        alloc: Global,
        old: &StProgram,
        text: &Text,
        renames: &[(Name, Name)],
    ) -> Result<StProgram, Refusal> {
        let program = build_program(alloc, &self.points.chassis, text)?;
        let old_layout = layout_over(&self.points.chassis, old);
        let new_layout = layout_over(&self.points.chassis, &program);
        match change_refusal(old_layout, new_layout, renames) {
            Some(refusal) => Err(refusal),
            None => Ok(program),
        }
    }

    fn text<'p>(&self, program: &'p StProgram) -> &'p Text {
        program.text()
    }

    fn word_count(&self, program: &StProgram) -> usize {
        layout_over(&self.points.chassis, program).words()
    }

    fn first(&self, alloc: Global, program: &StProgram) -> Result<Words, NoMemory> {
        layout_over(&self.points.chassis, program).first(alloc)
    }

    fn carry(
        &self,
        alloc: Global,
        old: &StProgram,
        new: &StProgram,
        renames: &[(Name, Name)],
        words: &Words,
    ) -> Result<Words, NoMemory> {
        let old_layout = layout_over(&self.points.chassis, old);
        let new_layout = layout_over(&self.points.chassis, new);
        carry_words(alloc, old_layout, new_layout, renames, words)
    }

    fn scan(
        &self,
        program: &StProgram,
        words: &mut Words,
        inputs: &Words,
        dt: i64,
        outputs: &mut Words,
        touched: &mut Touched,
    ) -> bool {
        scan_program(
            &self.points,
            program,
            words,
            inputs.items(),
            dt,
            outputs,
            touched,
        )
    }
}
