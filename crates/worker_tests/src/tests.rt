// That scans are printed while the legs run.

ghost use Rattle.std.specs.Prelude.{◌≡◌, IfOk};

use engine_face::{CountEngine, Engine};
use fault_history::Note;
use leg_core::LegRun;
use leg_workers::{Gate, Printer, play_printed};
use plant_script::{Script, ScriptFault, first_refused, read_script};
use play_report::start_legs;
use std::alloc::Global;
use std::sync::atomic::{AtomicU64, Ordering};
use std::test::Fail;
use std::thread::yield_now;
use tri_base::{Leg, NoMemory, Text, Triple, push_bytes};

const SCRIPT: &[u8] = b"TRICON 1\nTEXT\nX\nENDTEXT\nSCANS 40\nEND\n";

const SCANS: u64 = 40;

const HELD: u32 = 20;

const TURNS: u64 = 10_000_000;

/// A gate that holds each leg before scan 20 until scan 1 was printed, but asks at most so often.
#[derive(Drop)]
struct Held {
    printed: AtomicU64,
    held: AtomicU64,
    missed: AtomicU64,
}

impl Gate for Held {
    fn pass(&self, _leg: Leg, scan: u32) {
        if scan != HELD {
            return;
        }
        self.held.fetch_add(1, Ordering::SeqCst);
        for _ in 0..TURNS {
            if self.printed.load(Ordering::SeqCst) > 0 {
                return;
            }
            yield_now();
        }
        self.missed.fetch_add(1, Ordering::SeqCst);
    }
}

/// Counts the scans that it is handed, and those that come out of order.
#[derive(Drop)]
struct Counting<'g> {
    gate: &'g Held,
    scans: u64,
    astray: u64,
}

impl<'g> Printer for Counting<'g> {
    ghost After = { λ old scan notes new. Unit {0} };

    fn scan(&mut self, scan: u32, _a: &Note, _b: &Note, _c: &Note) {
        self.gate.printed.fetch_add(1, Ordering::SeqCst);
        self.scans = self.scans.saturating_add(1);
        if u64::from(scan) != self.scans {
            self.astray = self.astray.saturating_add(1);
        }
    }
}

/// The script that a short text spells.
fn read_short(alloc: Global, text: &Text) -> Result<Script, ScriptFault> {
    if text.len() > 100_000 {
        return Err(ScriptFault::NoMemory);
    }
    read_script(alloc, text)
}

/// The same; None where it spells none.
fn script_of(alloc: Global, text: &Text) -> Option<Script> {
    match read_short(alloc, text) {
        Ok(script) => Some(script),
        Err(_) => None,
    }
}

/// An engine over a script's points.
fn engine_over(alloc: Global, script: &Script) -> Result<CountEngine, NoMemory>
    ensures { IfOk result
        (λ engine. ⟦<CountEngine as Engine>⟧.points engine ≡ script.now.value.points) }
{
    let Ok(points) = Vec::from_slice(alloc, script.chassis().points()) else {
        return Err(NoMemory);
    };
    Ok(CountEngine::over(points))
}

/// Three legs before the first scan of a script; None where a block of it is no program.
#[tactic(auto, using(crate::proofs::Built::text_builds))]
fn legs_of(
    alloc: Global,
    script: &Script,
) -> Result<Option<Triple<LegRun<CountEngine>>>, NoMemory> {
    let engine = engine_over(alloc, script)?;
    match first_refused(alloc, script, &engine) {
        Ok(None) => {}
        Ok(Some(_)) => return Ok(None),
        Err(NoMemory) => return Err(NoMemory),
    }
    let a = engine_over(alloc, script)?;
    let b = engine_over(alloc, script)?;
    let c = engine_over(alloc, script)?;
    let legs = start_legs(alloc, Triple { a, b, c }, script)?;
    Ok(Some(legs))
}

#[test]
fn scans_are_printed_while_the_legs_run(rt: HostRuntime) -> Result<(), Fail> {
    let mut text = Text::new(rt.alloc());
    push_bytes(&mut text, SCRIPT)?;
    let script = script_of(rt.alloc(), &text).ok_or("script")?;
    let legs = legs_of(rt.alloc(), &script)?.ok_or("program")?;
    let gate = Held {
        printed: AtomicU64::new(0),
        held: AtomicU64::new(0),
        missed: AtomicU64::new(0),
    };
    let mut printer = Counting {
        gate: &gate,
        scans: 0,
        astray: 0,
    };
    let (legs, _settled) = play_printed(&rt, rt.alloc(), legs, &gate, &mut printer)?;
    drop(legs);
    assert_eq!(rt; (printer.scans, printer.astray), (SCANS, 0));
    assert_eq!(rt; gate.held.load(Ordering::SeqCst), 3);
    assert_eq!(rt; gate.missed.load(Ordering::SeqCst), 0);
    Ok(())
}
