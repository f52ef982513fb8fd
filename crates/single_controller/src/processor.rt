ghost use Rattle.std.specs.Prelude.{◌≡◌, ◌≤◌, ◌<◌, ◌+◌, ◌^◌, ◌≤ℤ◌, pos, None, length, IfOk, OnOk};
ghost use Rattle.std.specs.List.{All};
ghost use Rattle.tri_base.specs.Downloads.{Download};
ghost use Rattle.tri_base.specs.Limits.{scan_time_limit, word_limit};
ghost use Rattle.tri_base.specs.Rows.{HasRoom, KeepsRoom};
ghost use Rattle.chassis.specs.Points.{inputs_of, outputs_of};
ghost use Rattle.chassis.specs.Ranges.{HoldsZero};
ghost use Rattle.engine_face.specs.Meaning.{changes};
ghost use Rattle.script_text.specs.LegScans.{scan_at};
ghost use Rattle.single_controller.specs.Controller.{changed, changed_by, first_controller, scanned, verdict};
ghost use Rattle.single_controller.specs.Inner.Voted.{sheet_of};

use engine_face::{Engine, Refusal};
use plant_script::judged;
use script_text::Tape;
use std::alloc::Global;
use std::marker::Model;
use tri_base::{Name, NoMemory, Text, Touched, Voted, Words};

/// A program that runs: the words of its memory, and how many downloads were accepted.
#[derive(Drop)]
pub(crate) struct Processor<E: Engine> {
    program: E::Program,
    words: Words,
    epoch: u32,
}

impl<E: Engine> Model for Processor<E> {
    ghost use Rattle.single_controller.specs.Controller.{Controller};

    ghost Value = { Controller };

    ghost view = { λ p. record {
      text = E.text_of p.program;
      words = p.words.list;
      epoch = p.epoch;
    } };
}

impl<E: Engine> Processor<E> {
    /// It starts with a program's first words.
    pub(crate) fn new(
        alloc: Global,
        engine: &E,
        program: E::Program,
    ) -> Result<Processor<E>, NoMemory>
        requires { (E.meaning (E.points engine.now)).builds (E.text_of program) ≡ None }
        ensures { IfOk result (λ p.
            p ≡ first_controller (E.meaning (E.points engine.now)) (E.text_of program)) }
    {
        let words = engine.first(alloc, &program)?;
        Ok(Processor {
            program,
            words,
            epoch: 0,
        })
    }

    /// How many downloads were accepted.
    pub(crate) fn epoch(&self) -> u32
        ensures { result ≡ self.now.epoch }
    {
        self.epoch
    }

    /// Lends the words of the memory.
    pub(crate) fn words(&self) -> &[i64]
        ensures { result.now ≡ self.now.words }
    {
        self.words.items()
    }

    /// A scan's change point: None without a download, else whether and why it is refused.
    pub(crate) fn change(
        &mut self,
        alloc: Global,
        engine: &E,
        tape: &Tape,
        scan: u32,
    ) -> Result<Option<Option<Refusal>>, NoMemory>
        requires scan { (1 ≤ scan) × (scan ≤ length tape.now.scans) }
        requires zeros { All HoldsZero (E.points engine.now) }
        requires builds { (E.meaning (E.points engine.now)).builds self.old.text ≡ None }
        requires count { length self.old.words
            ≡ (E.meaning (E.points engine.now)).word_count self.old.text }
        requires epoch { self.old.epoch + 1 < 2 ^ 32 }
        ensures verdict { let m = E.meaning (E.points engine.now) in
            IfOk result (λ told. told ≡ verdict m (scan_at tape.now scan).download self.old) }
        ensures state { let m = E.meaning (E.points engine.now) in
            OnOk result (self.new ≡ changed m (scan_at tape.now scan).download self.old) }
        ensures builds { OnOk result
            ((E.meaning (E.points engine.now)).builds self.new.text ≡ None) }
        ensures count { OnOk result (length self.new.words
            ≡ (E.meaning (E.points engine.now)).word_count self.new.text) }
        ensures epoch { OnOk result (self.new.epoch ≤ self.old.epoch + 1) }
    {
        let Some(text) = tape.download(scan) else {
            return Ok(None);
        };
        let told = self.load(alloc, engine, text, tape.renames(scan))?;
        Ok(Some(told))
    }

    /// Takes a download that nothing refuses, and carries the words; else tells why not.
    fn load(
        &mut self,
        alloc: Global,
        engine: &E,
        text: &Text,
        renames: &[(Name, Name)],
    ) -> Result<Option<Refusal>, NoMemory>
        requires zeros { All HoldsZero (E.points engine.now) }
        requires builds { (E.meaning (E.points engine.now)).builds self.old.text ≡ None }
        requires count { length self.old.words
            ≡ (E.meaning (E.points engine.now)).word_count self.old.text }
        requires epoch { self.old.epoch + 1 < 2 ^ 32 }
        ensures verdict { let m = E.meaning (E.points engine.now) in
            let download : Download = record { text = text.now.list; renames = renames.now } in
            IfOk result (λ told. told ≡ changes m self.old.text download) }
        ensures state { let m = E.meaning (E.points engine.now) in
            let download : Download = record { text = text.now.list; renames = renames.now } in
            OnOk result (self.new
            ≡ changed_by m download self.old (changes m self.old.text download)) }
        ensures builds { OnOk result
            ((E.meaning (E.points engine.now)).builds self.new.text ≡ None) }
        ensures count { OnOk result (length self.new.words
            ≡ (E.meaning (E.points engine.now)).word_count self.new.text) }
        ensures epoch { OnOk result (self.new.epoch ≤ self.old.epoch + 1) }
    {
        match judged(alloc, engine, &self.program, text, renames)? {
            Ok(program) => {
                self.go_on(alloc, engine, program, renames)?;
                Ok(None)
            }
            Err(refusal) => Ok(Some(refusal)),
        }
    }

    /// Goes on with another program, whose words are carried.
    fn go_on(
        &mut self,
        alloc: Global,
        engine: &E,
        program: E::Program,
        renames: &[(Name, Name)],
    ) -> Result<(), NoMemory>
        requires accepts { let m = E.meaning (E.points engine.now) in
            let new : Download = record { text = E.text_of program; renames = renames.now } in
            changes m self.old.text new ≡ None }
        requires builds { (E.meaning (E.points engine.now)).builds self.old.text ≡ None }
        requires count { length self.old.words
            ≡ (E.meaning (E.points engine.now)).word_count self.old.text }
        requires epoch { self.old.epoch + 1 < 2 ^ 32 }
        ensures { let m = E.meaning (E.points engine.now) in
            let new : Download = record { text = E.text_of program; renames = renames.now } in
            OnOk result (self.new ≡ changed_by m new self.old None) }
    {
        self.words = engine.carry(alloc, &self.program, &program, renames, &self.words)?;
        self.program = program;
        self.epoch += 1;
        Ok(())
    }

    /// The scan of the program on voted inputs: whether it set the flag ARITH.
    pub(crate) fn run(
        &mut self,
        engine: &E,
        voted: &Voted,
        outputs: &mut Words,
        touched: &mut Touched,
    ) -> bool
        requires zeros { All HoldsZero (E.points engine.now) }
        requires builds { (E.meaning (E.points engine.now)).builds self.old.text ≡ None }
        requires count { length self.old.words
            ≡ (E.meaning (E.points engine.now)).word_count self.old.text }
        requires inputs { length voted.now.values.list ≡ length (inputs_of (E.points engine.now)) }
        requires from { pos 0 ≤ℤ voted.now.dt }
        requires to { voted.now.dt ≤ℤ scan_time_limit }
        requires room { HasRoom (length (outputs_of (E.points engine.now))) outputs.old }
        requires touched { word_limit ≤ touched.old.size }
        ensures state { let m = E.meaning (E.points engine.now) in
            self.new ≡ record self.old {
              words = (scanned m (sheet_of voted.now) self.old).words;
            } }
        ensures outputs { let m = E.meaning (E.points engine.now) in
            outputs.new.list ≡ (scanned m (sheet_of voted.now) self.old).outputs }
        ensures flag { let m = E.meaning (E.points engine.now) in
            result ≡ (scanned m (sheet_of voted.now) self.old).flag }
        ensures count { length self.new.words ≡ length self.old.words }
        ensures room { KeepsRoom outputs.old outputs.new }
        ensures size { touched.new.size ≡ touched.old.size }
    {
        engine.scan(
            &self.program,
            &mut self.words,
            &voted.values,
            voted.dt,
            outputs,
            touched,
        )
    }
}
