ghost use Rattle.std.specs.Prelude.{◌≡◌, ◌≤◌, length};
ghost use Rattle.script_text.specs.LegScans.{scan_at};
ghost use Rattle.plant_script.specs.Countdown.{counted_down, is_quiet};

use script_text::Tape;
use tri_base::Side;

/// Whether no fault line of a scan names the leg.
pub(crate) fn is_quiet(tape: &Tape, scan: u32) -> bool
    requires { (1 ≤ scan) × (scan ≤ length tape.now.scans) }
    ensures { result ≡ is_quiet (scan_at tape.now scan) }
{
    tape.acts(scan).is_empty()
        && tape.shown(scan, Side::Left).is_none()
        && tape.shown(scan, Side::Right).is_none()
        && tape.result(scan, Side::Left).is_none()
        && tape.result(scan, Side::Right).is_none()
        && tape.drive(scan).is_none()
}

/// The countdown behind a scan, from the one before.
pub(crate) fn counted_down(quiet: bool, accepted: bool, span: usize, count: usize) -> usize
    ensures { result ≡ counted_down quiet accepted span count }
{
    if !quiet || accepted && count > 0 {
        return span;
    }
    count.saturating_sub(1)
}
