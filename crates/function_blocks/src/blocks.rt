ghost use Rattle.std.specs.Prelude.{◌≡◌, ◌≤ℤ◌, pos, length};
ghost use Rattle.function_blocks.specs.Fields.{field_count};
ghost use Rattle.function_blocks.specs.Blocks.{step_block};

use crate::counters::{count_down, count_up};
use crate::latches::{falling_edge, reset_first, rising_edge, set_first};
use crate::timers::{off_delay, on_delay, pulse};

/// A standard function block (IEC 61131-3:2013, 6.6.3.5).
#[derive(Clone, Copy, Debug, PartialEq, Eq)]
pub enum BlockKind {
    /// R_TRIG, with the fields CLK, Q, M.
    RTrig,
    /// F_TRIG, with the fields CLK, Q, M.
    FTrig,
    /// SR, with the fields S1, R, Q1.
    Sr,
    /// RS, with the fields S, R1, Q1.
    Rs,
    /// CTU, with the fields CU, R, PV, Q, CV, M.
    Ctu,
    /// CTD, with the fields CD, LD, PV, Q, CV, M.
    Ctd,
    /// TON, with the fields IN, PT, Q, ET, M.
    Ton,
    /// TOF, with the fields IN, PT, Q, ET, M.
    Tof,
    /// TP, with the fields IN, PT, Q, ET, M.
    Tp,
}

/// One call of a block on its words. `dt` is the scan time of this call in milliseconds; each call
/// counts it once, however long ago the last call was. A word outside its field's type, as a fault
/// may leave it, counts as the nearest value of the type, for BOOL as TRUE where it isn't 0; the
/// call writes all words.
pub fn step_block(kind: BlockKind, fields: &mut [i64], dt: i64)
    requires fields { length fields.old ≡ field_count kind }
    requires from { pos 0 ≤ℤ dt }
    requires to { dt ≤ℤ pos 10_000 }
    ensures { fields.new ≡ step_block kind dt fields.old }
{
    match kind {
        BlockKind::RTrig => rising_edge(fields),
        BlockKind::FTrig => falling_edge(fields),
        BlockKind::Sr => set_first(fields),
        BlockKind::Rs => reset_first(fields),
        BlockKind::Ctu => count_up(fields),
        BlockKind::Ctd => count_down(fields),
        BlockKind::Ton => on_delay(fields, dt),
        BlockKind::Tof => off_delay(fields, dt),
        BlockKind::Tp => pulse(fields, dt),
    }
}
