ghost use Rattle.std.specs.Prelude.{◌≡◌, ◌≤◌, ◌+◌, ◌++◌, length};
ghost use Rattle.std.specs.List.{All};
ghost use Rattle.chassis.specs.Points.{outputs_of};
ghost use Rattle.chassis.specs.Ranges.{HoldsZero};
ghost use Rattle.engine_face.specs.Counting.{zeros_at};

use crate::engine::Engine;
use crate::refusal::Refusal;
use chassis::is_input;
use std::alloc::Global;
use tri_base::{GREATEST_COUNT, Name, NoMemory, Point, TEXT_LIMIT, Text, Touched, Words};

/// An engine for tests: each text of 1 to 16,384 bytes is a program of one word, which counts its
/// scans up to 32,767. Its outputs are 0.
#[derive(Drop)]
pub struct CountEngine {
    points: Vec<Point>,
}

/// A text that counts its scans.
#[derive(Drop)]
pub struct CountProgram {
    text: Text,
}

impl CountEngine {
    /// An engine over points. It takes no memory.
    pub fn over(points: Vec<Point>) -> CountEngine
        requires { All HoldsZero points.items }
        ensures { ⟦<CountEngine as Engine>⟧.points result ≡ points.items }
    {
        CountEngine { points }
    }
}

impl Engine for CountEngine {
    ghost use Rattle.engine_face.specs.Counting.{counting};
    ghost use Rattle.engine_face.specs.Inner.CountingLaws.{counting_lawful};

    type Program = CountProgram;

    ghost points = { λ engine. engine.points.items };

    ghost text_of = { λ program. program.text.list };

    ghost meaning = { counting };

    ghost lawful = { counting_lawful };

    fn build(&self, alloc: Global, text: &Text) -> Result<CountProgram, Refusal> {
        if text.len() == 0 {
            return Err(Refusal::Syntax { token: 0 });
        }
        if text.len() > TEXT_LIMIT {
            return Err(Refusal::TooLarge);
        }
        let text = text.copy(alloc).map_err(|_| Refusal::NoMemory)?;
        Ok(CountProgram { text })
    }

    fn change(
        &self,
        alloc: Global,
        _old: &CountProgram,
        text: &Text,
        renames: &[(Name, Name)],
    ) -> Result<CountProgram, Refusal> {
        let program = self.build(alloc, text)?;
        match renames {
            [] => Ok(program),
            [(old, _), ..] => Err(Refusal::RenameUnknown(*old)),
        }
    }

    fn text<'p>(&self, program: &'p CountProgram) -> &'p Text {
        &program.text
    }

    fn word_count(&self, _program: &CountProgram) -> usize {
        1
    }

    fn first(&self, alloc: Global, _program: &CountProgram) -> Result<Words, NoMemory> {
        let mut words = Words::new(alloc);
        words.reserve(1)?;
        words.add(0);
        Ok(words)
    }

    fn carry(
        &self,
        alloc: Global,
        _old: &CountProgram,
        _new: &CountProgram,
        _renames: &[(Name, Name)],
        words: &Words,
    ) -> Result<Words, NoMemory> {
        words.copy(alloc)
    }

    fn scan(
        &self,
        _program: &CountProgram,
        words: &mut Words,
        _inputs: &Words,
        _dt: i64,
        outputs: &mut Words,
        touched: &mut Touched,
    ) -> bool {
        let count = words.items()[0];
        touched.clear();
        touched.note(0, count);
        words.set(0, count.saturating_add(1).min(GREATEST_COUNT));
        outputs.clear();
        add_zeros(self.points.as_slice(), outputs);
        false
    }
}

/// Adds a 0 for each output point.
fn add_zeros(points: &[Point], outputs: &mut Words)
    requires { length (outputs_of points.now) ≤ outputs.old.spare }
    ensures list { outputs.new.list ≡ outputs.old.list ++ zeros_at points.now }
    ensures room { outputs.new.spare + length (outputs_of points.now) ≡ outputs.old.spare }
{
    for point in points {
        if !is_input(point.kind) {
            outputs.add(0);
        }
    }
}
