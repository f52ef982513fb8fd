ghost use Rattle.std.specs.Prelude.{◌≡◌, ◌≤◌, length, IfOk};
ghost use Rattle.std.specs.List.{All};
ghost use Rattle.chassis.specs.Points.{inputs_of, outputs_of};
ghost use Rattle.chassis.specs.Ranges.{HoldsZero};

use crate::{CountEngine, Engine, Refusal, WORD_LIMIT};
use std::alloc::Global;
use std::test::Fail;
use tri_base::{Name, NoMemory, Point, PointKind, Text, Touched, Words, push_bytes};

/// An engine over an analogue input and two analogue outputs.
fn engine_over_three(alloc: Global, name: Name) -> Result<CountEngine, NoMemory>
    ensures { let points = ⟦<CountEngine as Engine>⟧.points in
        IfOk result (λ e. All HoldsZero (points e)
        × (length (inputs_of (points e)) ≡ 1) × (length (outputs_of (points e)) ≡ 2)) }
{
    let points = Vec::from_array(
        alloc,
        [
            analogue(name, PointKind::Ai),
            analogue(name, PointKind::Ao),
            analogue(name, PointKind::Ao),
        ],
    )?;
    Ok(CountEngine::over(points))
}

/// An analogue point from -5 to 9.
fn analogue(name: Name, kind: PointKind) -> Point
    ensures kind { result.kind ≡ kind }
    ensures zero { HoldsZero result }
{
    Point {
        name,
        kind,
        low: -5,
        high: 9,
        tolerance: 1,
    }
}

fn text_of_length(alloc: Global, length: usize) -> Result<Text, NoMemory> {
    let mut text = Text::new(alloc);
    for _ in 0..length {
        push_bytes(&mut text, b"X")?;
    }
    Ok(text)
}

/// The words after two scans from the start.
fn after_two_scans<E: Engine>(
    alloc: Global,
    engine: &E,
    program: &E::Program,
    inputs: &Words,
    outputs: &mut Words,
) -> Result<Words, NoMemory>
    requires points { All HoldsZero (E.points engine.now) }
    requires program { (E.meaning (E.points engine.now)).builds (E.text_of program.now) ≡ None }
    requires inputs { length inputs.now.list ≡ length (inputs_of (E.points engine.now)) }
    requires outputs { length (outputs_of (E.points engine.now)) ≤ outputs.old.spare }
{
    let mut touched = Touched::new(alloc, WORD_LIMIT)?;
    let mut words = engine.first(alloc, program)?;
    let _ = engine.scan(program, &mut words, inputs, 0, outputs, &mut touched);
    let _ = engine.scan(program, &mut words, inputs, 10_000, outputs, &mut touched);
    Ok(words)
}

#[test]
fn a_text_of_1_to_16384_bytes_is_a_program(rt: HostRuntime) -> Result<(), Fail> {
    let engine = engine_over_three(rt.alloc(), Name::read(b"P").ok_or("P")?)?;
    for (length, refusal) in [
        (0, Some(Refusal::Syntax { token: 0 })),
        (1, None),
        (16_384, None),
        (16_385, Some(Refusal::TooLarge)),
    ] {
        let text = text_of_length(rt.alloc(), length)?;
        match engine.build(rt.alloc(), &text) {
            Ok(program) => {
                assert_eq!(rt; refusal, None);
                assert_eq!(rt; engine.text(&program).len(), length);
            }
            Err(met) => assert_eq!(rt; refusal, Some(met)),
        }
    }
    Ok(())
}

#[test]
fn a_program_counts_its_scans(rt: HostRuntime) -> Result<(), Fail> {
    let engine = engine_over_three(rt.alloc(), Name::read(b"P").ok_or("P")?)?;
    let text = text_of_length(rt.alloc(), 3)?;
    let program = engine.build(rt.alloc(), &text)?;
    let mut inputs = Words::new(rt.alloc());
    inputs.reserve(1)?;
    inputs.add(7);
    let mut outputs = Words::new(rt.alloc());
    outputs.reserve(2)?;
    let words = after_two_scans(rt.alloc(), &engine, &program, &inputs, &mut outputs)?;
    assert_eq!(rt; words.items(), [2].as_slice());
    assert_eq!(rt; outputs.items(), [0, 0].as_slice());
    Ok(())
}

#[test]
fn a_change_keeps_the_count_and_knows_no_rename(rt: HostRuntime) -> Result<(), Fail> {
    let name = Name::read(b"P").ok_or("P")?;
    let engine = CountEngine::over(Vec::new(rt.alloc()));
    let old = engine.build(rt.alloc(), &text_of_length(rt.alloc(), 1)?)?;
    let text = text_of_length(rt.alloc(), 2)?;
    let refused = engine.change(rt.alloc(), &old, &text, &[(name, name)]);
    assert_eq!(rt; refused.err(), Some(Refusal::RenameUnknown(name)));
    let new = engine.change(rt.alloc(), &old, &text, &[])?;
    let mut words = engine.first(rt.alloc(), &old)?;
    words.set(0, i64::MAX);
    let mut words = engine.carry(rt.alloc(), &old, &new, &[], &words)?;
    let inputs = Words::new(rt.alloc());
    let mut outputs = Words::new(rt.alloc());
    let mut touched = Touched::new(rt.alloc(), engine.word_count(&new))?;
    let flag = engine.scan(&new, &mut words, &inputs, 0, &mut outputs, &mut touched);
    assert!(rt; !flag);
    assert_eq!(rt; words.items(), [32_767].as_slice());
    assert_eq!(rt; touched.pairs(), [(0, i64::MAX)].as_slice());
    Ok(())
}
