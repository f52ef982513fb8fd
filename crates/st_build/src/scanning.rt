//! Scans of programs.

ghost use Rattle.std.specs.Prelude.{◌≡◌, ◌<◌, ◌≤◌, ◌≤ℤ◌, pos, length, None, IfSome};
ghost use Rattle.std.specs.List.{All};
ghost use Rattle.tri_base.specs.Limits.{scan_time_limit};
ghost use Rattle.tri_base.specs.Noted.{restored};
ghost use Rattle.tri_base.specs.Rows.{HasRoom, KeepsRoom};
ghost use Rattle.chassis.specs.Points.{inputs_of, outputs_of};
ghost use Rattle.tag_layout.specs.Layout.{total_words};
ghost use Rattle.scan_machine.specs.Machine as machine;
ghost use Rattle.scan_machine.specs.Machine.{Memory, Ran};
ghost use Rattle.tag_wiring.specs.PointWords.{AreDeclared, inputs_set, input_stores, outputs_from};
ghost use Rattle.st_build.specs.Building.{program_of, refusal_in, tags_at};
ghost use Rattle.st_build.specs.Running.{running, scanned_by, stored_by};

use crate::marked_chassis::MarkedChassis;
use crate::program::StProgram;
use chassis::Chassis;
use scan_machine::{Code, Steps, run};
use std::marker::Brand;
use std::sync::ledger::{Blank, Ledger};
use tag_layout::Layout;
use tag_wiring::{Wiring, by_name};
use tri_base::{Touched, Words};

/// Runs code. Its instructions are counted in a ledger that is dropped.
fn run_counted<L: Ledger>(
    blank: Blank,
    code: &Code,
    words: &mut Words,
    dt: i64,
    touched: &mut Touched,
) -> bool
    requires name { blank.name ≡ L.name }
    requires parts { blank.parts ≡ L.parts }
    requires some { 0 < blank.parts }
    requires words { length words.old.list ≡ code.now.words }
    requires from { pos 0 ≤ℤ dt }
    requires to { dt ≤ℤ scan_time_limit }
    requires touched { code.now.words ≤ touched.old.size }
    ensures ran { let before : Memory = record {
      words = words.old.list;
      stores = touched.old.pairs;
    } in
        let after : Memory = record { words = words.new.list; stores = touched.new.pairs } in
        (ran : Ran) × machine.Runs code.now.list dt before ran
        × (ran.memory ≡ after) × (ran.flag ≡ result) }
    ensures length { length words.new.list ≡ length words.old.list }
    ensures spare { words.new.spare ≡ words.old.spare }
    ensures size { touched.new.size ≡ touched.old.size }
{
    let mut steps: Steps<L> = Steps::new(blank);
    run(code, words, dt, touched, &mut steps)
}

/// Sets the inputs, runs the code and takes the outputs.
fn run_scan(
    points: &MarkedChassis,
    program: &StProgram,
    words: &mut Words,
    inputs: &[i64],
    dt: i64,
    outputs: &mut Words,
    touched: &mut Touched,
) -> bool
    requires words { length words.old.list ≡ total_words program.now.tags }
    requires inputs { length inputs.now ≡ length (inputs_of points.now.chassis) }
    requires from { pos 0 ≤ℤ dt }
    requires to { dt ≤ℤ scan_time_limit }
    requires room { HasRoom (length (outputs_of points.now.chassis)) outputs.old }
    requires touched { total_words program.now.tags ≤ touched.old.size }
    ensures ran { let tags = program.now.tags in
        let before : Memory = record {
          words = inputs_set points.now.chassis tags inputs.now words.old.list;
          stores = input_stores points.now.chassis tags words.old.list;
        } in
        let after : Memory = record { words = words.new.list; stores = touched.new.pairs } in
        (ran : Ran) × machine.Runs program.now.code.list dt before ran
        × (ran.memory ≡ after) × (ran.flag ≡ result) }
    ensures outputs { outputs.new.list
        ≡ outputs_from points.now.chassis program.now.tags words.new.list }
    ensures length { length words.new.list ≡ length words.old.list }
    ensures size { touched.new.size ≡ touched.old.size }
    ensures words_room { words.new.spare ≡ words.old.spare }
    ensures outputs_room { KeepsRoom outputs.old outputs.new }
{
    let chassis = &points.chassis;
    let layout = program.layout();
    let wiring = program.wiring_to(&points.mark);
    set_inputs(chassis, layout, wiring, inputs, words, touched);
    let flag = run_counted::<Brand>(Blank::new(1), program.code(), words, dt, touched);
    take_outputs(chassis, layout, wiring, words.items(), outputs);
    flag
}

/// Sets the words of the declared input tags, by the wiring where there is one.
fn set_inputs(
    chassis: &Chassis,
    layout: &Layout,
    wiring: Option<&Wiring>,
    inputs: &[i64],
    words: &mut Words,
    touched: &mut Touched,
)
    requires declared { AreDeclared layout.now }
    requires wired { IfSome wiring (λ w.
        w.now ≡ record { points = chassis.now; tags = layout.now }) }
    requires inputs { length inputs.now ≡ length (inputs_of chassis.now) }
    requires words { length words.old.list ≡ total_words layout.now }
    requires touched { total_words layout.now ≤ touched.old.size }
    ensures words { words.new.list ≡ inputs_set chassis.now layout.now inputs.now words.old.list }
    ensures room { words.new.spare ≡ words.old.spare }
    ensures touched { touched.new.pairs ≡ input_stores chassis.now layout.now words.old.list }
    ensures size { touched.new.size ≡ touched.old.size }
{
    match wiring {
        Some(wiring) => wiring.set_inputs(inputs, words, touched),
        None => by_name::set_inputs(chassis, layout, inputs, words, touched),
    }
}

/// Takes the outputs from the words, by the wiring where there is one.
fn take_outputs(
    chassis: &Chassis,
    layout: &Layout,
    wiring: Option<&Wiring>,
    words: &[i64],
    outputs: &mut Words,
)
    requires declared { AreDeclared layout.now }
    requires wired { IfSome wiring (λ w.
        w.now ≡ record { points = chassis.now; tags = layout.now }) }
    requires words { length words.now ≡ total_words layout.now }
    requires room { HasRoom (length (outputs_of chassis.now)) outputs.old }
    ensures list { outputs.new.list ≡ outputs_from chassis.now layout.now words.now }
    ensures room { KeepsRoom outputs.old outputs.new }
{
    match wiring {
        Some(wiring) => wiring.take_outputs(words, outputs),
        None => by_name::take_outputs(chassis, layout, words, outputs),
    }
}

/// A scan of what is a program over the points of a chassis.
pub(crate) fn scan_program(
    points: &MarkedChassis,
    program: &StProgram,
    words: &mut Words,
    inputs: &[i64],
    dt: i64,
    outputs: &mut Words,
    touched: &mut Touched,
) -> bool
    requires program { refusal_in (program_of points.now.chassis program.now.text) ≡ None }
    requires words { let tags = tags_at points.now.chassis program.now.text in
        length words.old.list ≡ total_words tags }
    requires inputs { length inputs.now ≡ length (inputs_of points.now.chassis) }
    requires from { pos 0 ≤ℤ dt }
    requires to { dt ≤ℤ scan_time_limit }
    requires room { HasRoom (length (outputs_of points.now.chassis)) outputs.old }
    requires touched { let tags = tags_at points.now.chassis program.now.text in
        total_words tags ≤ touched.old.size }
    ensures words { let at = points.now.chassis in
        let tree = running at (program_of at program.now.text) in
        words.new.list ≡ (scanned_by at tree words.old.list inputs.now dt).words }
    ensures outputs { let at = points.now.chassis in
        let tree = running at (program_of at program.now.text) in
        outputs.new.list ≡ (scanned_by at tree words.old.list inputs.now dt).outputs }
    ensures flag { let at = points.now.chassis in
        let tree = running at (program_of at program.now.text) in
        result ≡ (scanned_by at tree words.old.list inputs.now dt).flag }
    ensures stores { let at = points.now.chassis in
        let tree = running at (program_of at program.now.text) in
        touched.new.pairs ≡ stored_by at tree words.old.list inputs.now dt }
    ensures word_number { length words.new.list ≡ length words.old.list }
    ensures output_number { length outputs.new.list ≡ length (outputs_of points.now.chassis) }
    ensures within { All (λ pair. pair.0 < length words.old.list) touched.new.pairs }
    ensures restores { restored touched.new.pairs words.new.list ≡ words.old.list }
    ensures size { touched.new.size ≡ touched.old.size }
    ensures words_room { words.new.spare ≡ words.old.spare }
    ensures outputs_room { KeepsRoom outputs.old outputs.new }
{
    let _points = points.chassis.points();
    let _code = program.code();
    run_scan(points, program, words, inputs, dt, outputs, touched)
}
