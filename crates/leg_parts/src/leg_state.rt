ghost use Rattle.std.specs.Prelude.{◌≡◌, true, false};
ghost use Rattle.leg_laws.specs.Closing.{agreed};

use crate::own_result::OwnResult;
use crate::program_run::{ProgramRun, program_in};
use engine_face::{Engine, Verdict};
use fault_history::Ending;
use leg_packet::Packet;
use memory_compare::{Judgement, judge};
use re_education::laws::sizes_are_small;
use re_education::{Learner, Progress};
use script_text::{Act, Tape};
use std::alloc::Global;
use std::marker::Model;
use tri_base::{Judged, Leg, NoMemory, Side, TEXT_LIMIT, Text, Touched, Voted, WORD_LIMIT};

/// Whether a leg runs its program.
#[derive(Clone, Copy, Debug, PartialEq, Eq)]
pub(crate) enum Mode {
    Running,
    Learning,
}

/// What a leg made of three results.
#[derive(Clone, Copy, Debug, PartialEq, Eq)]
pub struct Closing {
    /// What it judged, or what came of learning.
    pub judged: Judged,
    /// It drives the outputs of its program.
    pub drives: bool,
}

/// A leg's program with its memory, over an engine, and what it has learned so far. A leg that
/// learns keeps its last program.
#[derive(Drop)]
pub struct LegState<E: Engine> {
    alloc: Global,
    engine: E,
    run: ProgramRun<E>,
    mode: Mode,
    learner: Learner,
    touched: Touched,
}

impl<E: Engine> Model for LegState<E> {
    ghost use Rattle.leg_parts.specs.Results.{StateValue};

    ghost Value = { StateValue };

    ghost use Rattle.leg_parts.specs.Inner.Kept.{IsFit, state_kept};

    ghost view = { λ s. record {
      points = E.points s.engine;
      state = state_kept s.mode s.run s.learner.lesson;
    } };

    ghost invariant = { λ s. IsFit (E.meaning (E.points s.engine)) (E.points s.engine)
        s.run s.learner.room s.touched.size };
}

impl<E: Engine> LegState<E> {
    ghost use Rattle.std.specs.Prelude.{◌≡◌, ◌≤◌, ◌≤ℤ◌, false, pos, None, Option, length, map, IsOk, OnOk, IfOk};
    ghost use Rattle.std.specs.List.{All, list_any};
    ghost use Rattle.tri_base.specs.Limits.{scan_time_limit};
    ghost use Rattle.chassis.specs.Points.{inputs_of, outputs_of, point_limit};
    ghost use Rattle.chassis.specs.Ranges.{HoldsZero};
    ghost use Rattle.engine_face.specs.declared.verdict.Verdict.{Verdict};
    ghost use Rattle.script_text.specs.Acts.{act_of};
    ghost use Rattle.script_text.specs.LegScans.{scan_at};
    ghost use Rattle.leg_laws.specs.States.{first_state};
    ghost use Rattle.leg_laws.specs.FaultLines.{acted, acted_all, swapped};
    ghost use Rattle.leg_laws.specs.ChangePoint.{change_point, prepared};
    ghost use Rattle.leg_laws.specs.HalfScans.{half_of};
    ghost use Rattle.leg_laws.specs.NeedsOfMemory.{builds_program, ends_learning, is_swap};
    ghost use Rattle.leg_parts.specs.Results.{half_with, voted_of};
    ghost use Rattle.leg_parts.specs.Closings.{Closes};
    ghost use Rattle.fault_history.specs.Notes.{ending_data};
    ghost use Rattle.leg_laws.specs.Endings.{state_ending};

    /// A leg that runs a program from its first words on.
    pub fn start(alloc: Global, engine: E, program: E::Program) -> Result<LegState<E>, NoMemory>
        requires zeros { All HoldsZero (E.points engine) }
        requires few { length (outputs_of (E.points engine)) ≤ point_limit }
        requires builds { (E.meaning (E.points engine)).builds (E.text_of program) ≡ None }
        ensures points { IfOk result (λ s. s.points ≡ E.points engine) }
        ensures state { IfOk result
            (λ s. s.state ≡ first_state (E.meaning (E.points engine)) (E.text_of program)) }
    {
        let run = ProgramRun::new(alloc, &engine, program)?;
        let mut learner = Learner::new(alloc);
        learner.reserve(TEXT_LIMIT + WORD_LIMIT)?;
        let touched = Touched::new(alloc, WORD_LIMIT)?;
        Ok(LegState {
            alloc,
            engine,
            run,
            mode: Mode::Running,
            learner,
            touched,
        })
    }

    #[tactic(auto, using(crate::proofs::Changes::prepared_is, crate::proofs::Changes::quiet))]
    /// The leg's fault lines of a scan and its change point: its verdict where the scan has a
    /// download. It takes memory only where the scan has a download or a SWAP for the leg; after
    /// NoMemory the state is any.
    pub fn prepare(&mut self, tape: &Tape, scan: u32) -> Result<Option<Verdict>, NoMemory>
        requires { (1 ≤ scan) × (scan ≤ length tape.now.scans) }
        ensures ready { let m = E.meaning self.old.points in
            IfOk result (λ verdict. prepared m (scan_at tape.now scan) self.old.state
            ≡ record { state = self.new.state; verdict = verdict }) }
        ensures points { self.new.points ≡ self.old.points }
        ensures steady { builds_program (scan_at tape.now scan) ≡ false → IsOk result }
    {
        self.act_all(tape.acts(scan))?;
        self.change(tape, scan)
    }

    /// Fault lines, one after the other.
    #[tactic(auto, using(crate::proofs::Changes::acts_step, crate::proofs::Changes::acts_none, crate::proofs::Changes::no_swap))]
    fn act_all(&mut self, acts: &[Act]) -> Result<(), NoMemory>
        ensures state { OnOk result (self.new.state
            ≡ acted_all (E.meaning self.old.points) self.old.state (map act_of acts.now)) }
        ensures points { self.new.points ≡ self.old.points }
        ensures steady { list_any is_swap (map act_of acts.now) ≡ false → IsOk result }
    {
        for act in acts {
            self.act(act)?;
        }
        Ok(())
    }

    /// One fault line.
    fn act(&mut self, act: &Act) -> Result<(), NoMemory>
        ensures state { OnOk result (self.new.state
            ≡ acted (E.meaning self.old.points) self.old.state (act_of act.now)) }
        ensures points { self.new.points ≡ self.old.points }
        ensures steady { is_swap (act_of act.now) ≡ false → IsOk result }
    {
        match act {
            Act::Poke { address, value } => {
                self.run.poke(*address, value);
                Ok(())
            }
            Act::Replace => {
                self.learner.forget();
                self.mode = Mode::Learning;
                Ok(())
            }
            Act::Swap(text) => self.swap(text),
        }
    }

    /// Runs another text from its first words on.
    fn swap(&mut self, text: &Text) -> Result<(), NoMemory>
        ensures state { OnOk result (self.new.state
            ≡ swapped (E.meaning self.old.points) text.now.list self.old.state) }
        ensures points { self.new.points ≡ self.old.points }
    {
        self.run.swap(self.alloc, &self.engine, text)?;
        match self.mode {
            Mode::Running => Ok(()),
            Mode::Learning => {
                self.run.begin();
                self.mode = Mode::Running;
                Ok(())
            }
        }
    }

    /// The change point.
    #[tactic(auto, using(crate::proofs::Changes::none_change, crate::proofs::Changes::learning_change, crate::proofs::Changes::running_change))]
    fn change(&mut self, tape: &Tape, scan: u32) -> Result<Option<Verdict>, NoMemory>
        requires { (1 ≤ scan) × (scan ≤ length tape.now.scans) }
        ensures ready { let m = E.meaning self.old.points in
            IfOk result (λ verdict.
            change_point m (scan_at tape.now scan).download self.old.state
            ≡ record { state = self.new.state; verdict = verdict }) }
        ensures points { self.new.points ≡ self.old.points }
        ensures steady { (scan_at tape.now scan).download ≡ None → IsOk result }
    {
        let Some(text) = tape.download(scan) else {
            return Ok(None);
        };
        match self.mode {
            Mode::Learning => Ok(Some(Verdict::Learning)),
            Mode::Running => {
                let renames = tape.renames(scan);
                let verdict = self.run.load(self.alloc, &self.engine, text, renames)?;
                Ok(Some(verdict))
            }
        }
    }

    /// Runs a scan of the program on what was voted, where the leg runs one; and makes the leg's
    /// result. It takes no memory.
    pub fn run(&mut self, voted: &Voted, own: &mut OwnResult)
        requires inputs { length voted.now.values.list ≡ length (inputs_of self.old.points) }
        requires from { pos 0 ≤ℤ voted.now.dt }
        requires to { voted.now.dt ≤ℤ scan_time_limit }
        ensures half { (verdict : Option Verdict)
            → half_with self.new.state verdict (voted_of voted.now) own.new
            ≡ half_of (E.meaning self.old.points) (voted_of voted.now) verdict self.old.state }
        ensures outputs { length own.new.outputs ≤ length (outputs_of self.old.points) }
        ensures points { self.new.points ≡ self.old.points }
    {
        match self.mode {
            Mode::Learning => own.learn(),
            Mode::Running => self.run.run(&self.engine, voted, &mut self.touched, own),
        }
    }

    /// Judges the leg's own result and those of its neighbours where it runs, and learns from these
    /// two where it learns. It takes memory only with the last window that it learns; after
    /// NoMemory the state is any.
    pub fn close(
        &mut self,
        leg: Leg,
        own: &Packet,
        left: &Packet,
        right: &Packet,
    ) -> Result<Closing, NoMemory>
        ensures closed { let m = E.meaning self.old.points in
            IfOk result
            (Closes m leg own.now left.now right.now self.old.state self.new.state) }
        ensures points { self.new.points ≡ self.old.points }
        ensures steady { ends_learning self.old.state left.now right.now ≡ false → IsOk result }
    {
        sizes_are_small();
        match self.mode {
            Mode::Running => match judge(own, left, right) {
                Judgement::Minority => {
                    self.learner.forget();
                    self.mode = Mode::Learning;
                    Ok(resting(Judged::Minority))
                }
                Judgement::Agrees { accused } => {
                    self.run.turn_on(&self.engine);
                    Ok(driving(agreed(leg, accused)))
                }
                Judgement::NoVote => {
                    self.run.turn_on(&self.engine);
                    Ok(driving(Judged::NoVote))
                }
            },
            Mode::Learning => match self.learner.learn(self.alloc, left, right)? {
                Progress::Waiting => Ok(resting(Judged::Waiting)),
                Progress::Learned(windows) => Ok(resting(Judged::Learned(windows))),
                Progress::Ready(image) => {
                    let Some(run) = program_in(self.alloc, &self.engine, image)? else {
                        return Ok(resting(Judged::Rejected));
                    };
                    self.run = run;
                    self.mode = Mode::Running;
                    Ok(resting(Judged::Ready))
                }
            },
        }
    }

    /// How the leg stands: epoch, turn and words where it runs, the number of windows where it
    /// learns.
    pub fn ending(&self) -> Ending<'_>
        ensures { ending_data result ≡ state_ending self.now.state }
    {
        match self.mode {
            Mode::Running => Ending::Run {
                epoch: self.run.epoch() as i64,
                turn: self.run.turn() as i64,
                words: self.run.words(),
            },
            Mode::Learning => Ending::Learn {
                windows: self.learner.windows(),
            },
        }
    }
}

/// It drives its outputs.
fn driving(judged: Judged) -> Closing
    ensures { result ≡ record { judged = judged; drives = true } }
{
    Closing {
        judged,
        drives: true,
    }
}

/// It drives nothing.
fn resting(judged: Judged) -> Closing
    ensures { result ≡ record { judged = judged; drives = false } }
{
    Closing {
        judged,
        drives: false,
    }
}

/// Whom a leg accuses, where one neighbour alone has another result.
fn agreed(leg: Leg, accused: Option<Side>) -> Judged
    ensures { result ≡ agreed leg accused }
{
    match accused {
        None => Judged::Agrees,
        Some(side) => Judged::Accuses(leg.neighbour(side)),
    }
}
