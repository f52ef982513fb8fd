ghost use Rattle.std.specs.Prelude.{◌≡◌, ◌≤◌, None, length, IfOk};
ghost use Rattle.std.specs.List.{All};
ghost use Rattle.chassis.specs.Ranges.{HoldsZero};
ghost use Rattle.leg_packet.specs.Sheets.{epoch_limit};
ghost use Rattle.leg_parts.specs.Inner.Programs.{IsWhole, TellsProgram};
ghost use Rattle.re_education.specs.Learned.{AreBounded};

use crate::own_result::OwnResult;
use crate::running::{natural, turn_after};
use engine_face::{Engine, Refusal, Verdict};
use plant_script::judged;
use re_education::Image;
use std::alloc::Global;
use std::marker::Model;
use tri_base::{Name, NoMemory, Text, Touched, Voted, Words};

// The greatest number of accepted downloads that is counted.
const EPOCH_LIMIT: usize = 1_000_000_000_000_000_000;

/// A program that runs: its words, how many downloads were accepted, and which window of the memory
/// the next result shows.
#[derive(Drop)]
pub(crate) struct ProgramRun<E: Engine> {
    program: E::Program,
    words: Words,
    epoch: usize,
    turn: usize,
}

impl<E: Engine> Model for ProgramRun<E> {
    ghost use Rattle.leg_laws.specs.States.{Run};

    ghost Value = { Run };

    ghost view = { λ r. record {
      text = E.text_of r.program;
      words = r.words.list;
      epoch = r.epoch;
      turn = r.turn;
    } };
}

impl<E: Engine> ProgramRun<E> {
    ghost use Rattle.std.specs.Prelude.{◌≡◌, ◌≤◌, ◌≤ℤ◌, pos, None, Some, length, slice_set, IfOk, OnOk};
    ghost use Rattle.std.specs.List.{All};
    ghost use Rattle.tri_base.specs.Downloads.{Download};
    ghost use Rattle.tri_base.specs.Limits.{scan_time_limit, word_limit};
    ghost use Rattle.chassis.specs.Points.{inputs_of, outputs_of, point_limit};
    ghost use Rattle.chassis.specs.Ranges.{HoldsZero};
    ghost use Rattle.engine_face.specs.Meaning.{changes};
    ghost use Rattle.leg_packet.specs.Sheets.{epoch_limit};
    ghost use Rattle.leg_laws.specs.States.{Run, Running};
    ghost use Rattle.leg_laws.specs.ChangePoint.{changed_run};
    ghost use Rattle.leg_laws.specs.HalfScans.{run_on};
    ghost use Rattle.leg_laws.specs.Closing.{turned};
    ghost use Rattle.leg_parts.specs.Results.{run_result, voted_of};
    ghost use Rattle.leg_parts.specs.Inner.Programs.{FitsProgram};

    /// A program with its first words.
    pub(crate) fn new(
        alloc: Global,
        engine: &E,
        program: E::Program,
    ) -> Result<ProgramRun<E>, NoMemory>
        requires { (E.meaning (E.points engine.now)).builds (E.text_of program) ≡ None }
        ensures { let m = E.meaning (E.points engine.now) in
            IfOk result (λ run. run ≡ record {
              text = E.text_of program;
              words = m.first (E.text_of program);
              epoch = 0;
              turn = 0;
            }) }
    {
        let words = engine.first(alloc, &program)?;
        Ok(ProgramRun {
            program,
            words,
            epoch: 0,
            turn: 0,
        })
    }

    /// Lends the words of the memory.
    pub(crate) fn words(&self) -> &Words
        ensures { result.now.list ≡ self.now.words }
    {
        &self.words
    }

    /// How many downloads were accepted.
    pub(crate) fn epoch(&self) -> usize
        ensures { result ≡ self.now.epoch }
    {
        self.epoch
    }

    /// Which window the next result shows.
    pub(crate) fn turn(&self) -> usize
        ensures { result ≡ self.now.turn }
    {
        self.turn
    }

    /// Sets a word, where there is one.
    pub(crate) fn poke(&mut self, address: usize, value: &i64)
        ensures { self.new
            ≡ record self.old { words = slice_set self.old.words address value.now } }
    {
        if address < self.words.len() {
            self.words.set(address, *value);
        }
    }

    /// Another program with its first words, which keeps epoch and turn.
    pub(crate) fn swap(&mut self, alloc: Global, engine: &E, text: &Text) -> Result<(), NoMemory>
        requires zeros { All HoldsZero (E.points engine.now) }
        requires fits { FitsProgram (E.meaning (E.points engine.now)) self.old }
        ensures run { let m = E.meaning (E.points engine.now) in
            OnOk result (self.new ≡ record self.old {
              text = text.now.list;
              words = m.first text.now.list;
            }) }
        ensures fits { FitsProgram (E.meaning (E.points engine.now)) self.new }
    {
        let program = engine.build(alloc, text).map_err(|_| NoMemory)?;
        let words = engine.first(alloc, &program)?;
        self.program = program;
        self.words = words;
        Ok(())
    }

    /// Epoch 0 and turn 0.
    pub(crate) fn begin(&mut self)
        ensures { self.new ≡ record self.old { epoch = 0; turn = 0 } }
    {
        self.epoch = 0;
        self.turn = 0;
    }

    /// Takes a download that nothing refuses, and carries the words; else tells why not.
    pub(crate) fn load(
        &mut self,
        alloc: Global,
        engine: &E,
        text: &Text,
        renames: &[(Name, Name)],
    ) -> Result<Verdict, NoMemory>
        requires zeros { All HoldsZero (E.points engine.now) }
        requires fits { FitsProgram (E.meaning (E.points engine.now)) self.old }
        ensures run { let m = E.meaning (E.points engine.now) in
            let download : Download = record { text = text.now.list; renames = renames.now } in
            IfOk result (λ verdict.
            changed_run m download self.old (changes m self.old.text download)
            ≡ record { state = Running self.new; verdict = Some verdict }) }
        ensures fits { FitsProgram (E.meaning (E.points engine.now)) self.new }
    {
        match judged(alloc, engine, &self.program, text, renames)? {
            Ok(program) => {
                self.go_on(alloc, engine, program, renames)?;
                Ok(Verdict::Accepted)
            }
            Err(refusal) => Ok(Verdict::Refused(refusal)),
        }
    }

    /// Goes on with another program, whose words are carried.
    fn go_on(
        &mut self,
        alloc: Global,
        engine: &E,
        program: E::Program,
        renames: &[(Name, Name)],
    ) -> Result<(), NoMemory>
        requires zeros { All HoldsZero (E.points engine.now) }
        requires accepts { let m = E.meaning (E.points engine.now) in
            let new : Download = record { text = E.text_of program; renames = renames.now } in
            changes m self.old.text new ≡ None }
        requires fits { FitsProgram (E.meaning (E.points engine.now)) self.old }
        ensures run { let m = E.meaning (E.points engine.now) in
            let new : Download = record { text = E.text_of program; renames = renames.now } in
            OnOk result (changed_run m new self.old None
            ≡ record { state = Running self.new; verdict = Some Verdict.Accepted }) }
        ensures fits { FitsProgram (E.meaning (E.points engine.now)) self.new }
    {
        let words = engine.carry(alloc, &self.program, &program, renames, &self.words)?;
        self.words = words;
        self.program = program;
        self.epoch = (self.epoch + 1).min(EPOCH_LIMIT);
        self.turn = 0;
        Ok(())
    }

    /// Runs a scan on what was voted, and makes the result of it. It takes no memory.
    pub(crate) fn run(
        &mut self,
        engine: &E,
        voted: &Voted,
        touched: &mut Touched,
        own: &mut OwnResult,
    )
        requires zeros { All HoldsZero (E.points engine.now) }
        requires few { length (outputs_of (E.points engine.now)) ≤ point_limit }
        requires fits { FitsProgram (E.meaning (E.points engine.now)) self.old }
        requires inputs { length voted.now.values.list ≡ length (inputs_of (E.points engine.now)) }
        requires from { pos 0 ≤ℤ voted.now.dt }
        requires to { voted.now.dt ≤ℤ scan_time_limit }
        requires touched { touched.old.size ≡ word_limit }
        ensures run { let m = E.meaning (E.points engine.now) in
            self.new ≡ record self.old { words = (run_on m self.old (voted_of voted.now)).words } }
        ensures result { let m = E.meaning (E.points engine.now) in
            own.new ≡ run_result m (voted_of voted.now) self.old }
        ensures fits { FitsProgram (E.meaning (E.points engine.now)) self.new }
        ensures outputs { length own.new.outputs ≤ length (outputs_of (E.points engine.now)) }
        ensures touched { touched.new.size ≡ touched.old.size }
    {
        own.run(
            engine,
            &self.program,
            &mut self.words,
            self.epoch,
            self.turn,
            voted,
            touched,
        );
    }

    /// The next result shows the next window.
    pub(crate) fn turn_on(&mut self, engine: &E)
        requires zeros { All HoldsZero (E.points engine.now) }
        requires fits { FitsProgram (E.meaning (E.points engine.now)) self.old }
        ensures run { self.new ≡ turned self.old }
        ensures fits { FitsProgram (E.meaning (E.points engine.now)) self.new }
    {
        let text = engine.text(&self.program).len();
        self.turn = turn_after(self.turn, text, self.words.len());
    }
}

/// The program of an image, or None where it is none.
pub(crate) fn program_in<E: Engine>(
    alloc: Global,
    engine: &E,
    image: Image,
) -> Result<Option<ProgramRun<E>>, NoMemory>
    requires zeros { All HoldsZero (E.points engine.now) }
    requires bounded { AreBounded image }
    requires whole { IsWhole image }
    ensures program { IfOk result (TellsProgram (E.meaning (E.points engine.now)) image) }
{
    let program = match engine.build(alloc, &image.text) {
        Ok(program) => program,
        Err(Refusal::NoMemory) => return Err(NoMemory),
        Err(_) => return Ok(None),
    };
    if engine.word_count(&program) != image.words.len() {
        return Ok(None);
    }
    Ok(Some(ProgramRun {
        program,
        epoch: natural(&image.epoch),
        turn: natural(&image.turn),
        words: image.words,
    }))
}
