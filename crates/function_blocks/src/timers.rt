// Timers.

ghost use Rattle.std.specs.Prelude.{◌≡◌, ◌≤ℤ◌, pos, [], ◌∷◌, length};
ghost use Rattle.function_blocks.specs.Blocks.{elapsed, preset, step_block};
ghost use Rattle.function_blocks.specs.Values.{IsOperand, number};

use crate::blocks::BlockKind;
use crate::reading::{read_bool, read_dint};

// The preset time, or 0 where it is negative.
fn time_of(pt: i64) -> i64
    ensures { result ≡ preset pt }
{
    if pt < 0 { 0 } else { pt }
}

// The elapsed time after `dt` more, which stops at the preset time.
fn run_on(dt: i64, pt: i64, et: i64) -> i64
    requires from { pos 0 ≤ℤ dt }
    requires to { dt ≤ℤ pos 10_000 }
    requires time { IsOperand et }
    ensures { result ≡ elapsed dt pt et }
{
    let time = time_of(pt);
    let more = et + dt;
    if time < more { time } else { more }
}

// Writes the fields of a timer.
fn write(fields: &mut [i64], input: bool, pt: i64, q: bool, et: i64)
    requires { length fields.old ≡ 5 }
    ensures { fields.new ≡ number input ∷ pt ∷ number q ∷ et ∷ number input ∷ [] }
{
    let input = i64::from(input);
    fields.copy_from_slice(&[input, pt, i64::from(q), et, input]);
}

/// TON.
pub(crate) fn on_delay(fields: &mut [i64], dt: i64)
    requires fields { length fields.old ≡ 5 }
    requires from { pos 0 ≤ℤ dt }
    requires to { dt ≤ℤ pos 10_000 }
    ensures { fields.new ≡ step_block BlockKind.Ton dt fields.old }
{
    let pt = read_dint(fields, 1);
    if !read_bool(fields, 0) {
        write(fields, false, pt, false, 0);
    } else if !read_bool(fields, 4) {
        write(fields, true, pt, time_of(pt) <= 0, 0);
    } else {
        let et = run_on(dt, pt, read_dint(fields, 3));
        write(fields, true, pt, time_of(pt) <= et, et);
    }
}

/// TOF.
pub(crate) fn off_delay(fields: &mut [i64], dt: i64)
    requires fields { length fields.old ≡ 5 }
    requires from { pos 0 ≤ℤ dt }
    requires to { dt ≤ℤ pos 10_000 }
    ensures { fields.new ≡ step_block BlockKind.Tof dt fields.old }
{
    let pt = read_dint(fields, 1);
    let et = read_dint(fields, 3);
    if read_bool(fields, 0) {
        write(fields, true, pt, true, 0);
    } else if read_bool(fields, 4) {
        write(fields, false, pt, 0 < time_of(pt), 0);
    } else if read_bool(fields, 2) {
        let et = run_on(dt, pt, et);
        write(fields, false, pt, et < time_of(pt), et);
    } else {
        write(fields, false, pt, false, et);
    }
}

/// TP.
pub(crate) fn pulse(fields: &mut [i64], dt: i64)
    requires fields { length fields.old ≡ 5 }
    requires from { pos 0 ≤ℤ dt }
    requires to { dt ≤ℤ pos 10_000 }
    ensures { fields.new ≡ step_block BlockKind.Tp dt fields.old }
{
    let input = read_bool(fields, 0);
    let pt = read_dint(fields, 1);
    let et = read_dint(fields, 3);
    if read_bool(fields, 2) {
        let et = run_on(dt, pt, et);
        write(fields, input, pt, et < time_of(pt), et);
    } else if !input {
        write(fields, false, pt, false, 0);
    } else if read_bool(fields, 4) {
        write(fields, true, pt, false, et);
    } else {
        write(fields, true, pt, 0 < time_of(pt), 0);
    }
}
