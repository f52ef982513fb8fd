ghost use Rattle.std.specs.Prelude.{◌≡◌, ◌≤◌, ◌-◌, None, length, IfOk, OnOk};
ghost use Rattle.std.specs.List.{All, AllZip};
ghost use Rattle.tri_base.specs.declared.leg.Side.TheVariants.{Right};
ghost use Rattle.chassis.specs.Points.{outputs_of};
ghost use Rattle.chassis.specs.Ranges.{HoldsZero, IsWithin};
ghost use Rattle.script_text.specs.LegScans.{scan_at};
ghost use Rattle.plant_script.specs.Faces.{face};
ghost use Rattle.single_controller.specs.Controller.{scanned_at, verdict_at, voted_at};
ghost use Rattle.single_controller.specs.Standing.{Stands};

use crate::face::Face;
use crate::processor::Processor;
use engine_face::{Engine, Refusal};
use input_legs::vote_sheet;
use script_text::Script;
use std::alloc::Global;
use std::marker::Model;
use tri_base::{Leg, NoMemory, Touched, Triple, Voted, WORD_LIMIT, Words};

// No chassis has more inputs, and none more outputs.
const POINT_LIMIT: usize = 256;

/// The one controller without faults, in a play of a script.
#[derive(Drop)]
pub struct Single<E: Engine> {
    processor: Processor<E>,
    faces: Triple<Face>,
    voted: Voted,
    outputs: Words,
    touched: Touched,
}

impl<E: Engine> Model for Single<E> {
    ghost use Rattle.std.specs.Prelude.{◌≤◌};
    ghost use Rattle.tri_base.specs.Limits.{word_limit};
    ghost use Rattle.tri_base.specs.Rows.{HasRoom};
    ghost use Rattle.chassis.specs.Points.{point_limit};
    ghost use Rattle.single_controller.specs.Standing.{SingleValue};

    ghost Value = { SingleValue };

    ghost view = { λ s. record {
      controller = s.processor;
      tape_a = s.faces.a.tape;
      tape_b = s.faces.b.tape;
      tape_c = s.faces.c.tape;
      voted = record { time = s.voted.dt; values = s.voted.values.list };
      outputs = s.outputs.list;
    } };

    ghost invariant = { λ s. record {
      voted : HasRoom point_limit s.voted.values;
      outputs : HasRoom point_limit s.outputs;
      touched : word_limit ≤ s.touched.size;
    } };
}

/// What a scan came to.
#[derive(Clone, Copy, Debug, PartialEq, Eq)]
pub struct ScanOutcome {
    /// Of the scan's download: None without one, else why it was refused, or None where it was
    /// accepted.
    pub verdict: Option<Option<Refusal>>,
    /// The flag ARITH: whether a computed number or an index was clamped, or a divisor was 0.
    pub arith: bool,
}

/// The one controller before the first scan, with room for what its scans need. The program is that
/// of the script's text.
pub fn start<E: Engine>(
    alloc: Global,
    engine: &E,
    script: &Script,
    program: E::Program,
) -> Result<Single<E>, NoMemory>
    requires program { E.text_of program ≡ script.now.value.text }
    requires zeros { All HoldsZero (E.points engine.now) }
    requires builds { (E.meaning (E.points engine.now)).builds script.now.value.text ≡ None }
    ensures { IfOk result (λ single.
        Stands (E.meaning (E.points engine.now)) script.now.value 0 single) }
{
    let processor = Processor::new(alloc, engine, program)?;
    let faces = Triple {
        a: Face::new(alloc, script, Leg::A)?,
        b: Face::new(alloc, script, Leg::B)?,
        c: Face::new(alloc, script, Leg::C)?,
    };
    let voted = Voted {
        dt: 0,
        values: with_room(alloc, POINT_LIMIT)?,
    };
    let outputs = with_room(alloc, POINT_LIMIT)?;
    let touched = Touched::new(alloc, WORD_LIMIT)?;
    Ok(Single {
        processor,
        faces,
        voted,
        outputs,
        touched,
    })
}

/// No words, with room for so many.
fn with_room(alloc: Global, room: usize) -> Result<Words, NoMemory>
    ensures { IfOk result (λ words. room ≤ words.spare) }
{
    let mut words = Words::new(alloc);
    words.reserve(room)?;
    Ok(words)
}

impl<E: Engine> Single<E> {
    /// The next scan of the script that it was started with. Scans count from 1. Without a download
    /// it takes no memory, unless a script's line shows a packet of more than 8,518 words. After
    /// NoMemory it is of no use.
    pub fn next_scan(
        &mut self,
        alloc: Global,
        engine: &E,
        script: &Script,
        scan: u32,
    ) -> Result<ScanOutcome, NoMemory>
        requires stands { Stands (E.meaning (E.points engine.now)) script.now.value (scan - 1)
            self.old }
        requires scan { (1 ≤ scan) × (scan ≤ script.now.value.scans) }
        requires zeros { All HoldsZero (E.points engine.now) }
        requires points { E.points engine.now ≡ script.now.value.points }
        ensures stands { OnOk result
            (Stands (E.meaning (E.points engine.now)) script.now.value scan self.new) }
        ensures verdict { let m = E.meaning (E.points engine.now) in
            IfOk result (λ outcome. outcome.verdict ≡ verdict_at m script.now.value scan) }
        ensures voted { OnOk result (self.new.voted ≡ voted_at script.now.value scan) }
        ensures outputs { let m = E.meaning (E.points engine.now) in
            OnOk result (self.new.outputs ≡ (scanned_at m script.now.value scan).outputs) }
        ensures flag { let m = E.meaning (E.points engine.now) in
            IfOk result (λ outcome. outcome.arith ≡ (scanned_at m script.now.value scan).flag) }
        ensures within { OnOk result
            (AllZip IsWithin (outputs_of script.now.value.points) self.new.outputs) }
    {
        let chassis = script.chassis();
        // A chassis has few outputs.
        let _points = chassis.points();
        let verdict = self
            .processor
            .change(alloc, engine, self.faces.a.tape(), scan)?;
        show_all(&mut self.faces, scan)?;
        vote_sheet(
            chassis,
            self.faces.a.packet(),
            self.faces.b.packet(),
            self.faces.c.packet(),
            &mut self.voted,
        );
        let arith = self
            .processor
            .run(engine, &self.voted, &mut self.outputs, &mut self.touched);
        Ok(ScanOutcome { verdict, arith })
    }

    /// The voted time of the last scan, in milliseconds.
    pub fn time(&self) -> i64
        ensures { result ≡ self.now.voted.time }
    {
        self.voted.dt
    }

    /// Lends the voted values of the last scan, one for each input in chassis order.
    pub fn inputs(&self) -> &[i64]
        ensures { result.now ≡ self.now.voted.values }
    {
        self.voted.values.items()
    }

    /// Lends the outputs of the last scan, in chassis order.
    pub fn outputs(&self) -> &[i64]
        ensures { result.now ≡ self.now.outputs }
    {
        self.outputs.items()
    }

    /// How many downloads it has accepted.
    pub fn epoch(&self) -> u32
        ensures { result ≡ self.now.controller.epoch }
    {
        self.processor.epoch()
    }

    /// Lends the words of its memory.
    pub fn words(&self) -> &[i64]
        ensures { result.now ≡ self.now.controller.words }
    {
        self.processor.words()
    }
}

/// Each leg shows its packet of a scan.
fn show_all(faces: &mut Triple<Face>, scan: u32) -> Result<(), NoMemory>
    requires a { (1 ≤ scan) × (scan ≤ length faces.old.a.tape.scans) }
    requires b { (1 ≤ scan) × (scan ≤ length faces.old.b.tape.scans) }
    requires c { (1 ≤ scan) × (scan ≤ length faces.old.c.tape.scans) }
    ensures a { OnOk result (faces.new.a.packet ≡ face Right (scan_at faces.old.a.tape scan)) }
    ensures b { OnOk result (faces.new.b.packet ≡ face Right (scan_at faces.old.b.tape scan)) }
    ensures c { OnOk result (faces.new.c.packet ≡ face Right (scan_at faces.old.c.tape scan)) }
    ensures tape_a { faces.new.a.tape ≡ faces.old.a.tape }
    ensures tape_b { faces.new.b.tape ≡ faces.old.b.tape }
    ensures tape_c { faces.new.c.tape ≡ faces.old.c.tape }
{
    faces.a.show(scan)?;
    faces.b.show(scan)?;
    faces.c.show(scan)
}
