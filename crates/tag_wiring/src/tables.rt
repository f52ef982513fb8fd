//! The tables of a wiring: names are looked up once, when they are made.

ghost use Rattle.std.specs.Prelude.{◌≡◌, ◌<◌, [], ◌∷◌, ◌++◌, map, OnOk, IfOk, IfSome};
ghost use Rattle.tri_base.specs.declared.point.Point.{Point};
ghost use Rattle.st_tree.specs.declared.tag.Tag.{Tag};
ghost use Rattle.chassis.specs.Points.{inputs_of, outputs_of};
ghost use Rattle.tag_layout.specs.Layout.{AreApart, total_words};
ghost use Rattle.tag_wiring.specs.PointWords.{tag_address, input_tags};
ghost use Rattle.tag_wiring.specs.Inner.Steps.{HaveWords, address_for, told_among};
ghost use Rattle.tag_wiring.specs.Inner.Wires.{wire_of};

use crate::names::{is_input_point, kind_of_tag, point_address};
use crate::outputs::OutputWire;
use chassis::{Chassis, is_input};
use std::alloc::Global;
use tag_layout::Layout;
use tri_base::{Name, NoMemory, Point};

/// For each input point the address of its tag, if it is declared.
pub fn input_addresses(
    alloc: Global,
    points: &[Point],
    layout: &Layout,
) -> Result<Vec<Option<usize>>, NoMemory>
    requires { HaveWords layout.now }
    ensures { IfOk result (λ addresses. addresses.items
        ≡ map (λ (p : Point). address_for layout.now p.name) (inputs_of points.now)) }
{
    let mut addresses = Vec::new(alloc);
    for point in points {
        push_input(&mut addresses, point, layout)?;
    }
    Ok(addresses)
}

// Adds the address of the tag of an input point.
fn push_input(
    addresses: &mut Vec<Option<usize>>,
    point: &Point,
    layout: &Layout,
) -> Result<(), NoMemory>
    requires { HaveWords layout.now }
    ensures { OnOk result (addresses.new.items ≡ addresses.old.items
        ++ map (λ (p : Point). address_for layout.now p.name) (inputs_of (point.now ∷ []))) }
{
    if is_input(point.kind) {
        addresses.push(point_address(layout, &point.name))?;
    }
    Ok(())
}

/// The address of each declared input tag, in order of declaration.
pub fn told_addresses(
    alloc: Global,
    chassis: &Chassis,
    layout: &Layout,
) -> Result<Vec<usize>, NoMemory>
    requires { HaveWords layout.now }
    ensures told { IfOk result (λ told. told.items
        ≡ map (λ (t : Tag). tag_address layout.now t.name) (input_tags chassis.now layout.now)) }
    ensures apart { AreApart layout.now }
{
    let mut told = Vec::new(alloc);
    for tag in layout.tags() {
        push_told(&mut told, chassis, layout, &tag.name)?;
    }
    Ok(told)
}

// Adds the address of a tag, if it is that of an input point.
fn push_told(
    told: &mut Vec<usize>,
    chassis: &Chassis,
    layout: &Layout,
    name: &Name,
) -> Result<(), NoMemory>
    requires { HaveWords layout.now }
    ensures { OnOk result (told.new.items
        ≡ told.old.items ++ told_among chassis.now layout.now (name.now ∷ [])) }
{
    let Some(address) = point_address(layout, name) else {
        return Ok(());
    };
    if is_input_point(chassis, name) {
        told.push(address)?;
    }
    Ok(())
}

/// Where the value of each output point comes from.
pub fn output_wires(
    alloc: Global,
    points: &[Point],
    layout: &Layout,
) -> Result<Vec<OutputWire>, NoMemory>
    requires { HaveWords layout.now }
    ensures { IfOk result (λ wires. wires.items
        ≡ map (wire_of layout.now) (outputs_of points.now)) }
{
    let mut wires = Vec::new(alloc);
    for point in points {
        push_output(&mut wires, point, layout)?;
    }
    Ok(wires)
}

// Adds where the value of an output point comes from.
fn push_output(wires: &mut Vec<OutputWire>, point: &Point, layout: &Layout) -> Result<(), NoMemory>
    requires { HaveWords layout.now }
    ensures { OnOk result (wires.new.items
        ≡ wires.old.items ++ map (wire_of layout.now) (outputs_of (point.now ∷ []))) }
{
    if !is_input(point.kind) {
        wires.push(output_wire(point, layout))?;
    }
    Ok(())
}

/// Where the value of an output point comes from.
pub fn output_wire(point: &Point, layout: &Layout) -> OutputWire
    requires { HaveWords layout.now }
    ensures value { result ≡ wire_of layout.now point.now }
    ensures within { IfSome result.address (λ at. at < total_words layout.now) }
{
    OutputWire {
        address: point_address(layout, &point.name),
        kind: kind_of_tag(layout, &point.name),
        low: point.low,
        high: point.high,
    }
}
