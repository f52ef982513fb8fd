ghost use Rattle.std.specs.Prelude.{◌≡◌, ◌+◌, ◌≤◌, ◌++◌, length};
ghost use Rattle.std.specs.List.{All, AllZip};
ghost use Rattle.tri_base.specs.Rows.{HasRoom, KeepsRoom};
ghost use Rattle.chassis.specs.Points.{outputs_of};
ghost use Rattle.chassis.specs.Ranges.{Fits, IsWithin};
ghost use Rattle.vote_analog.specs.Middle.{present};
ghost use Rattle.output_voter.specs.CommonDrives.{common_drive, vote_drives_of, common_from, drives_at};
ghost use Rattle.output_voter.specs.Inner.Slices.{slice_in};
ghost use Rattle.output_voter.specs.Lent.{words_in};

use crate::drive::{drive_at, output_count, whole_drive};
use crate::word::common_drive;
use chassis::{Chassis, is_input};
use tri_base::{Point, Triple, Words};

/// Empties `out` and fills it with the field outputs, one word for each output in chassis order:
/// of three drives the majority or the middle, of two their common value or 0 where they differ, of
/// one that one, of none 0. A drive with another number of words is absent, and so is a word that
/// lies outside its point's range.
#[tactic(auto, using(crate::proofs::Lengths::length_common_from))]
pub fn vote_drives(
    chassis: &Chassis,
    a: Option<&Words>,
    b: Option<&Words>,
    c: Option<&Words>,
    out: &mut Words,
)
    requires { HasRoom (length (outputs_of chassis.now)) out.old }
    ensures drives { out.new.list ≡ vote_drives_of chassis.now
        (record { a = words_in a.entry; b = words_in b.entry; c = words_in c.entry }) }
    ensures count { length out.new.list ≡ length (outputs_of chassis.now) }
    ensures within { AllZip IsWithin (outputs_of chassis.now) out.new.list }
    ensures room { KeepsRoom out.old out.new }
{
    let points = chassis.points();
    let outputs = output_count(points);
    out.clear();
    add_common(
        points,
        whole_drive(a, outputs),
        whole_drive(b, outputs),
        whole_drive(c, outputs),
        out,
    );
}

/// Adds the field output of each output point.
fn add_common(
    points: &[Point],
    a: Option<&[i64]>,
    b: Option<&[i64]>,
    c: Option<&[i64]>,
    out: &mut Words,
)
    requires fit { All Fits points.now }
    requires room { length (outputs_of points.now) ≤ out.old.spare }
    ensures list { out.new.list ≡ out.old.list ++ common_from (outputs_of points.now) 0
        (record { a = slice_in a.entry; b = slice_in b.entry; c = slice_in c.entry }) }
    ensures room { out.new.spare + length (outputs_of points.now) ≡ out.old.spare }
{
    let mut place = 0;
    for point in points {
        if !is_input(point.kind) {
            out.add(field_output(point, place, a, b, c));
            place += 1;
        }
    }
}

/// The field output of the point at a place of the drives.
fn field_output(
    point: &Point,
    place: usize,
    a: Option<&[i64]>,
    b: Option<&[i64]>,
    c: Option<&[i64]>,
) -> i64
    requires { Fits point.now }
    ensures { result ≡ common_drive point.now.kind (present (drives_at point.now place
        (record { a = slice_in a.entry; b = slice_in b.entry; c = slice_in c.entry }))) }
{
    let words = Triple {
        a: drive_at(point, place, a),
        b: drive_at(point, place, b),
        c: drive_at(point, place, c),
    };
    common_drive(point.kind, words)
}
