ghost use Rattle.std.specs.Prelude.{◌≡◌, ◌≤◌, ◌+◌, ◌<◌, ◌^◌, ◌++◌, map, pos, OnOk, IfOk};
ghost use Rattle.std.specs.List.{range_with_len};
ghost use Rattle.tri_base.specs.Limits.{scan_limit};
ghost use Rattle.script_maker.specs.Programs.{generated_text};
ghost use Rattle.script_maker.specs.Generated.{all_legs, discrete_line, analogue_line, leg_in_turn, event_lines, moment_of, generated_moment};

use crate::draw::next_draw;
use crate::plant::ROW_LENGTH;
use script_lines::Block;
use script_text::{Moment, ScanLine, Setting};
use std::alloc::Global;
use tri_base::{Leg, NoMemory, Triple};

/// The scans of the generator, from the draws of a number.
pub(crate) fn make_moments(
    alloc: Global,
    number: u32,
    scans: u32,
    program: &Block,
) -> Result<Vec<Moment>, NoMemory>
    requires { program.now ≡ generated_text }
    ensures { IfOk result (λ moments. moments.items ≡
        map (generated_moment number) (range_with_len 0 scans)) }
{
    let mut moments = Vec::new(alloc);
    let mut drawn = number;
    for done in 0..scans {
        let first = next_draw(drawn);
        let second = next_draw(first);
        let moment = make_moment(alloc, done + 1, first, second, program)?;
        let Ok(()) = moments.push(moment) else {
            return Err(NoMemory);
        };
        drawn = second;
    }
    Ok(moments)
}

/// A scan with its two draws.
fn make_moment(
    alloc: Global,
    scan: u32,
    first: u32,
    second: u32,
    program: &Block,
) -> Result<Moment, NoMemory>
    requires { program.now ≡ generated_text }
    ensures { IfOk result (λ moment. moment ≡ moment_of scan first second) }
{
    let mut moment = Moment::new(alloc, scan);
    moment.add(discrete_line(first))?;
    moment.add(analogue_line(second))?;
    match scan % 1000 {
        10 => moment.add(ScanLine::Replace(leg_in_turn(scan / 1000 % 3)))?,
        990 => moment.add(ScanLine::Download(program.copy(alloc)?))?,
        _ => {}
    }
    Ok(moment)
}

/// A discrete input gets a reading.
fn discrete_line(x: u32) -> ScanLine
    ensures { result ≡ discrete_line x }
{
    setting_line(x / 65_536 % ROW_LENGTH, x / 8_388_608 % 2)
}

/// An analogue input gets a reading.
fn analogue_line(x: u32) -> ScanLine
    ensures { result ≡ analogue_line x }
{
    setting_line(ROW_LENGTH + x / 65_536 % ROW_LENGTH, x / 1_048_576)
}

/// The input at a place gets a reading that is the same for all legs.
fn setting_line(place: u32, value: u32) -> ScanLine
    ensures { result ≡ ScanLine.Set (record { point = place; reads = all_legs value }) }
{
    let reading = i64::from(value);
    ScanLine::Set(Setting {
        point: place as usize,
        reads: Triple {
            a: reading,
            b: reading,
            c: reading,
        },
    })
}

/// The legs take turns.
fn leg_in_turn(turn: u32) -> Leg
    ensures { result ≡ leg_in_turn turn }
{
    match turn {
        0 => Leg::A,
        1 => Leg::B,
        _ => Leg::C,
    }
}
