//! What holds of all packets: written and read, they say the same.

ghost use Rattle.std.specs.Prelude.{◌≡◌, ◌≤◌, ◌<◌, ℤ, List, length, Some, None};
ghost use Rattle.tri_base.specs.declared.point.Point.{Point};
ghost use Rattle.chassis.specs.Points.{inputs_of, point_limit};
ghost use Rattle.leg_packet.specs.Readings.{Readings, AreCanonical, readings_of, spelled_readings};
ghost use Rattle.leg_packet.specs.Sheets.{Has, IsCanonical, IsSized, Sheet, sheet_of, spelled, spelled_out, packet_limit};
ghost use Rattle.leg_packet.specs.declared.sheet.OutSheet.{OutSheet};

/// A canonical sheet is read from its spelling.
pub fn reads_what_is_spelled()
    ensures { (s : Sheet) → IsCanonical s → sheet_of (spelled s) ≡ Some s }
{}

/// What is read is canonical, and spelled so.
pub fn spells_what_is_read()
    ensures { (p : List ℤ) (s : Sheet) → sheet_of p ≡ Some s → IsCanonical s × (spelled s ≡ p) }
{}

/// Two sheets with whole windows that are spelled alike are the same.
pub fn sheets_spell_apart()
    ensures { (s t : Sheet) → IsSized s → IsSized t → spelled s ≡ spelled t → s ≡ t }
{}

/// An out-sheet is spelled as the sheet whose fields it has.
pub fn out_is_sheet()
    ensures { (o : OutSheet) (s : Sheet) → Has o s → spelled_out o ≡ spelled s }
{}

/// Canonical readings are read from their spelling.
pub fn reads_spelled_readings()
    ensures { (points : List Point) (r : Readings) → AreCanonical points r
        → readings_of points (spelled_readings r) ≡ Some r }
{}

/// Readings that are read are canonical, and spelled so.
pub fn spells_read_readings()
    ensures { (points : List Point) (p : List ℤ) (r : Readings) → readings_of points p ≡ Some r
        → AreCanonical points r × (spelled_readings r ≡ p) }
{}

/// A packet with more words than every packet has room for is no readings.
pub fn long_is_absent()
    ensures { (points : List Point) (p : List ℤ) → length (inputs_of points) ≤ point_limit
        → packet_limit < length p → readings_of points p ≡ None }
{}
