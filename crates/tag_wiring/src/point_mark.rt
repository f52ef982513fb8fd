//! The points of a chassis, spelled in one text.

ghost use Rattle.std.specs.Prelude.{◌≡◌, ◌↔◌, [], ◌∷◌, ◌++◌, IfOk, OnOk, IsTrue, Some};
ghost use Rattle.std.specs.List.{All};
ghost use Rattle.std.specs.String.{string_bytes};
ghost use Rattle.tri_base.specs.Names.{name_of};
ghost use Rattle.tag_wiring.specs.Inner.Spelling.{IsPlain, kind_letter, point_then, spelled};

use chassis::Chassis;
use std::alloc::Global;
use std::marker::Model;
use std::snapshot::Snapshot;
use tri_base::{Name, NoMemory, Point, PointKind};

/// The points of a chassis, spelled in one text, so that all of them are compared at once.
#[derive(Drop)]
pub struct PointMark {
    // The points. A snapshot has no bytes.
    points: Snapshot<Chassis>,
    // How they are spelled. No other points are spelled so.
    text: String,
}

impl Model for PointMark {
    ghost use Rattle.std.specs.Prelude.{List};
    ghost use Rattle.tri_base.specs.declared.point.Point.{Point};

    ghost Value = { List Point };

    ghost use Rattle.tag_wiring.specs.Inner.Marked.{IsMarked};

    ghost view = { λ s. s.points.value };

    ghost invariant = { IsMarked };
}

impl PointMark {
    /// Spells the points of a chassis.
    pub fn of(alloc: Global, chassis: &Chassis) -> Result<PointMark, NoMemory>
        ensures { IfOk result (λ mark. mark ≡ chassis.now) }
    {
        let text = spell_points(alloc, chassis.points())?;
        Ok(PointMark {
            points: Snapshot::of(chassis),
            text,
        })
    }

    /// Whether both are of the same points. It compares the texts.
    pub fn is_same(&self, other: &PointMark) -> bool
        ensures { IsTrue result ↔ (self.now ≡ other.now) }
    {
        self.text.as_str() == other.text.as_str()
    }
}

/// The text that spells points.
fn spell_points(alloc: Global, points: &[Point]) -> Result<String, NoMemory>
    ensures text { IfOk result (λ text. string_bytes text ≡ spelled points.now) }
    ensures plain { OnOk result (All IsPlain points.now) }
{
    let mut text = String::new(alloc);
    for point in points {
        push_point(&mut text, point)?;
    }
    Ok(text)
}

/// Adds what spells a point.
fn push_point(text: &mut String, point: &Point) -> Result<(), NoMemory>
    ensures text { OnOk result (string_bytes text.new
        ≡ string_bytes text.old ++ point_then point.now []) }
    ensures plain { IsPlain point.now }
{
    let kind = letter(point.kind);
    let name = spelled_name(&point.name);
    let (low, high, tolerance) = (point.low, point.high, point.tolerance);
    write!(text, "{kind}{low} {high} {tolerance} {name} ").map_err(|_| NoMemory)
}

/// The letter that stands for a kind.
fn letter(kind: PointKind) -> &'static str
    ensures { result.now ≡ kind_letter kind ∷ [] }
{
    match kind {
        PointKind::Di => "D",
        PointKind::Ai => "A",
        PointKind::Do => "d",
        PointKind::Ao => "a",
    }
}

/// A name's text.
fn spelled_name(name: &Name) -> &str
    ensures value { result.now ≡ name.now }
    ensures again { name_of name.now ≡ Some name.now }
{
    std::str::from_utf8(name.bytes()).unwrap()
}
