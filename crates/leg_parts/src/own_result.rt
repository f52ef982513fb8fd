use crate::rooms::with_room;
use crate::running::tell_changes;
use engine_face::Engine;
use leg_packet::{OutSheet, Packet, write_learning, write_out};
use std::alloc::Global;
use std::marker::Model;
use tri_base::{NoMemory, Touched, Voted, WORD_LIMIT, Words};

// The words of a window.
const WINDOW: usize = 64;

// No chassis has more outputs.
const POINT_LIMIT: usize = 256;

/// What a leg made of a scan before it saw its neighbours' results: the result that it puts, the
/// outputs of its program and the flag ARITH. It has room for that of any program.
#[derive(Drop)]
pub struct OwnResult {
    runs: bool,
    sheet: OutSheet,
    flag: bool,
}

impl Model for OwnResult {
    ghost use Rattle.leg_parts.specs.Results.{ResultValue};

    ghost Value = { ResultValue };

    ghost use Rattle.leg_parts.specs.Inner.Sheets.{IsShort, result_kept};

    ghost view = { λ r. result_kept r.runs r.sheet r.flag };

    ghost invariant = { λ r. IsShort r.sheet };
}

impl OwnResult {
    ghost use Rattle.std.specs.Prelude.{◌≡◌, ◌≤◌, ◌≤ℤ◌, pos, None, length, IfOk};
    ghost use Rattle.tri_base.specs.Limits.{scan_time_limit, word_limit};
    ghost use Rattle.chassis.specs.Points.{IsChassis, inputs_of, outputs_of, point_limit};
    ghost use Rattle.chassis.specs.Ranges.{HoldsZero};
    ghost use Rattle.std.specs.List.{All};
    ghost use Rattle.leg_packet.specs.Sheets.{epoch_limit};
    ghost use Rattle.leg_laws.specs.States.{Run};
    ghost use Rattle.leg_laws.specs.HalfScans.{run_on};
    ghost use Rattle.leg_parts.specs.Results.{learner_result, run_result, voted_of};

    /// The result of a leg that learns, with room for that of any program.
    pub fn new(alloc: Global) -> Result<OwnResult, NoMemory>
        ensures { IfOk result (λ r. r ≡ learner_result) }
    {
        let sheet = OutSheet {
            epoch: 0,
            turn: 0,
            text_length: 0,
            word_length: 0,
            window: with_room(alloc, WINDOW)?,
            addresses: with_room(alloc, WORD_LIMIT)?,
            values: with_room(alloc, WORD_LIMIT)?,
            outputs: with_room(alloc, POINT_LIMIT)?,
        };
        Ok(OwnResult {
            runs: false,
            sheet,
            flag: false,
        })
    }

    /// Puts the result in place of a packet's content. It takes no memory.
    pub fn write(&self, packet: &mut Packet)
        ensures { packet.new ≡ self.now.own }
    {
        if self.runs {
            write_out(packet, &self.sheet);
        } else {
            write_learning(packet);
        }
    }

    /// Lends the outputs, in chassis order. A leg that learns has none.
    pub fn outputs(&self) -> &[i64]
        ensures value { result.now ≡ self.now.outputs }
    {
        if self.runs {
            return self.sheet.outputs.items();
        }
        &[]
    }

    /// The flag ARITH of the program's scan.
    pub fn flag(&self) -> bool
        ensures { result ≡ self.now.flag }
    {
        self.runs && self.flag
    }

    /// Makes it the result of a leg that learns.
    pub fn learn(&mut self)
        ensures { self.new ≡ learner_result }
    {
        self.runs = false;
    }

    /// Runs a scan of a program on what was voted, and makes it that result. It takes no memory.
    pub(crate) fn run<E: Engine>(
        &mut self,
        engine: &E,
        program: &E::Program,
        words: &mut Words,
        epoch: usize,
        turn: usize,
        voted: &Voted,
        touched: &mut Touched,
    )
        requires zeros { All HoldsZero (E.points engine.now) }
        requires few { length (outputs_of (E.points engine.now)) ≤ point_limit }
        requires builds { (E.meaning (E.points engine.now)).builds (E.text_of program.now) ≡ None }
        requires count { length words.old.list
            ≡ (E.meaning (E.points engine.now)).word_count (E.text_of program.now) }
        requires epoch { epoch ≤ epoch_limit }
        requires turn { turn ≤ 319 }
        requires inputs { length voted.now.values.list ≡ length (inputs_of (E.points engine.now)) }
        requires from { pos 0 ≤ℤ voted.now.dt }
        requires to { voted.now.dt ≤ℤ scan_time_limit }
        requires touched { touched.old.size ≡ word_limit }
        ensures words { let m = E.meaning (E.points engine.now) in
            let run : Run = record {
              text = E.text_of program.now;
              words = words.old.list;
              epoch = epoch;
              turn = turn;
            } in
            words.new.list ≡ (run_on m run (voted_of voted.now)).words }
        ensures result { let m = E.meaning (E.points engine.now) in
            let run : Run = record {
              text = E.text_of program.now;
              words = words.old.list;
              epoch = epoch;
              turn = turn;
            } in
            self.new ≡ run_result m (voted_of voted.now) run }
        ensures count { length words.new.list ≡ length words.old.list }
        ensures outputs { length self.new.outputs ≤ length (outputs_of (E.points engine.now)) }
        ensures touched { touched.new.size ≡ touched.old.size }
    {
        self.flag = engine.scan(
            program,
            words,
            &voted.values,
            voted.dt,
            &mut self.sheet.outputs,
            touched,
        );
        tell_changes(
            &mut self.sheet,
            engine.text(program),
            words,
            touched,
            epoch,
            turn,
        );
        self.runs = true;
    }
}
