ghost use Rattle.std.specs.Prelude.{◌≡◌, ◌≢◌, [], ◌∷◌, ◌++◌, map, slice_get, Some, None, OnOk, OnErr, IfOk, IfErr, IfSome, IfNone, IsErrOf};
ghost use Rattle.std.specs.List.{All};
ghost use Rattle.chassis.specs.Points.{IsChassis, place_of, refusal_of, is_full};
ghost use Rattle.chassis.specs.Ranges.{HoldsZero};

use crate::points::{ChassisFault, is_input};
use crate::range::fits;
use indexmap::IndexSet;
use std::alloc::Global;
use std::marker::Model;
use tri_base::{Name, NoMemory, Point, PointKind};

// How many inputs there may be, and how many outputs.
const POINT_LIMIT: usize = 256;

/// The points of a chassis in order of adding, seen as the list of them.
#[derive(Drop)]
pub struct Chassis {
    points: Vec<Point>,
    names: IndexSet<Name>,
    inputs: usize,
    outputs: usize,
}

impl Model for Chassis {
    ghost use Rattle.std.specs.Prelude.{List};
    ghost use Rattle.tri_base.specs.declared.point.Point.{Point};

    ghost Value = { List Point };

    ghost use Rattle.chassis.specs.Inner.Kept.{IsKept};

    ghost view = { λ s. s.points.items };

    ghost invariant = { IsKept };
}

impl Chassis {
    /// No points. It takes no memory, and keeps the allocator for later.
    pub fn new(alloc: Global) -> Chassis
        ensures { result ≡ [] }
    {
        Chassis {
            points: Vec::new(alloc),
            names: IndexSet::new(alloc),
            inputs: 0,
            outputs: 0,
        }
    }

    /// The same points again.
    pub fn copy(&self, alloc: Global) -> Result<Chassis, NoMemory>
        ensures { IfOk result (λ chassis. chassis ≡ self.now) }
    {
        let Ok(points) = Vec::from_slice(alloc, self.points.as_slice()) else {
            return Err(NoMemory);
        };
        let Ok(names) = self.names.clone() else {
            return Err(NoMemory);
        };
        Ok(Chassis {
            points,
            names,
            inputs: self.inputs,
            outputs: self.outputs,
        })
    }

    /// Adds a point behind the others.
    pub fn add(&mut self, point: Point) -> Result<(), ChassisFault>
        ensures added { OnOk result (self.new ≡ self.old ++ point ∷ []) }
        ensures allowed { OnOk result (refusal_of self.old point ≡ None) }
        ensures refused { IfErr result (λ fault. fault ≢ ChassisFault.NoMemory → refusal_of self.old point ≡ Some fault) }
        ensures no_memory { IsErrOf result ChassisFault.NoMemory → refusal_of self.old point ≡ None }
        ensures unchanged { OnErr result (self.new ≡ self.old) }
    {
        if let Some(fault) = self.refusal(&point) {
            return Err(fault);
        }
        self.points.reserve(1).map_err(|_| ChassisFault::NoMemory)?;
        self.names
            .insert(point.name)
            .map_err(|_| ChassisFault::NoMemory)?;
        self.points.push(point).unwrap();
        let input = is_input(point.kind);
        self.inputs += usize::from(input);
        self.outputs += usize::from(!input);
        Ok(())
    }

    /// The place of the point with a name, in order of adding.
    pub fn find(&self, name: &Name) -> Option<usize>
        ensures place { result ≡ place_of self.now name.now }
        ensures found { IfSome result (λ place. slice_get (map (λ p. p.name) self.now) place ≡ Some name.now) }
        ensures absent { IfNone result (All (λ p. p.name ≢ name.now) self.now) }
    {
        self.names.get_index_of(name)
    }

    /// Lends the points in order of adding.
    pub fn points(&self) -> &[Point]
        ensures value { result.now ≡ self.now }
        ensures chassis { IsChassis self.now }
        ensures holds_zero { All HoldsZero self.now }
    {
        self.points.as_slice()
    }

    /// The first fault of a point that is to be added, if memory isn't counted.
    fn refusal(&self, point: &Point) -> Option<ChassisFault>
        ensures { result ≡ refusal_of self.now point.now }
    {
        if !fits(point) {
            return Some(ChassisFault::BadRange);
        }
        if self.find(&point.name).is_some() {
            return Some(ChassisFault::Twice(point.name));
        }
        self.is_full(point.kind).then_some(ChassisFault::Full)
    }

    /// Whether there are as many points of the kind's direction as there may be.
    fn is_full(&self, kind: PointKind) -> bool
        ensures { result ≡ is_full self.now kind }
    {
        if is_input(kind) {
            self.inputs >= POINT_LIMIT
        } else {
            self.outputs >= POINT_LIMIT
        }
    }
}
