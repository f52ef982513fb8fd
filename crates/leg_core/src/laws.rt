//! What holds of all tapes, as a contract of a function that does nothing.

ghost use Rattle.std.specs.Prelude.{List};
ghost use Rattle.std.specs.List.{All};
ghost use Rattle.tri_base.specs.declared.point.Point.{Point};
ghost use Rattle.script_text.specs.LegScans.{IsReadable, TapeValue};
ghost use Rattle.leg_core.specs.Calls.{ReadsInputs};

/// A tape whose scans can be read has a reading for each input in each of them.
pub fn readable_tapes_read_inputs()
    ensures { (points : List Point) (tape : TapeValue) → All (IsReadable points) tape.scans
        → ReadsInputs points tape }
{}
