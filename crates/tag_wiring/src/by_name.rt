//! What a wiring does, for points whose tags weren't looked up before: each name is looked up anew.

ghost use Rattle.std.specs.Prelude.{◌≡◌, ◌<◌, ◌≤◌, ◌+◌, [], ◌∷◌, ◌++◌, length, drop, fold, zip, map};
ghost use Rattle.tri_base.specs.Rows.{HasRoom, KeepsRoom};
ghost use Rattle.st_tree.specs.declared.tag.Tag.{Tag};
ghost use Rattle.chassis.specs.Points.{inputs_of, outputs_of};
ghost use Rattle.tag_layout.specs.Layout.{total_words};
ghost use Rattle.tag_wiring.specs.PointWords.{AreDeclared, tag_address, input_tags, input_set, inputs_set, input_stores, output_in, outputs_from};
ghost use Rattle.tag_wiring.specs.Inner.Steps.{HaveWords, told_among, told_at, noted_at, input_words};

use crate::inputs::set_word;
use crate::names::{is_input_point, point_address};
use crate::outputs::value;
use crate::tables::output_wire;
use chassis::{Chassis, is_input};
use tag_layout::Layout;
use tri_base::{Name, Point, Touched, Words};

/// Does what `Wiring::set_inputs` does, without a wiring. It takes no memory.
pub fn set_inputs(
    chassis: &Chassis,
    layout: &Layout,
    inputs: &[i64],
    words: &mut Words,
    touched: &mut Touched,
)
    requires declared { AreDeclared layout.now }
    requires inputs { length inputs.now ≡ length (inputs_of chassis.now) }
    requires words { length words.old.list ≡ total_words layout.now }
    requires touched { total_words layout.now ≤ touched.old.size }
    ensures words { words.new.list ≡ inputs_set chassis.now layout.now inputs.now words.old.list }
    ensures room { words.new.spare ≡ words.old.spare }
    ensures touched { touched.new.pairs ≡ input_stores chassis.now layout.now words.old.list }
    ensures size { touched.new.size ≡ touched.old.size }
{
    touched.clear();
    note_tags(chassis, layout, words.items(), touched);
    set_points(chassis.points(), layout, inputs, words);
}

/// Does what `Wiring::take_outputs` does, without a wiring. It takes no memory.
pub fn take_outputs(chassis: &Chassis, layout: &Layout, words: &[i64], outputs: &mut Words)
    requires declared { AreDeclared layout.now }
    requires words { length words.now ≡ total_words layout.now }
    requires room { HasRoom (length (outputs_of chassis.now)) outputs.old }
    ensures list { outputs.new.list ≡ outputs_from chassis.now layout.now words.now }
    ensures room { KeepsRoom outputs.old outputs.new }
{
    outputs.clear();
    take_points(chassis.points(), layout, words, outputs);
}

/// Notes the number that stands in the word of each declared input tag.
fn note_tags(chassis: &Chassis, layout: &Layout, words: &[i64], touched: &mut Touched)
    requires have { HaveWords layout.now }
    requires words { length words.now ≡ total_words layout.now }
    requires none { touched.old.pairs ≡ [] }
    requires size { total_words layout.now ≤ touched.old.size }
    ensures pairs { touched.new.pairs ≡ input_stores chassis.now layout.now words.now }
    ensures size { touched.new.size ≡ touched.old.size }
{
    for tag in layout.tags() {
        note_tag(chassis, layout, &tag.name, words, touched);
    }
}

/// Notes the number that stands in the word of a tag, if it is that of an input point.
fn note_tag(chassis: &Chassis, layout: &Layout, name: &Name, words: &[i64], touched: &mut Touched)
    requires have { HaveWords layout.now }
    requires words { length words.now ≡ total_words layout.now }
    requires size { total_words layout.now ≤ touched.old.size }
    ensures { let told = told_among chassis.now layout.now (name.now ∷ []) in
        touched.new
        ≡ record touched.old { pairs = fold (noted_at words.now) touched.old.pairs told } }
{
    let Some(address) = point_address(layout, name) else {
        return;
    };
    if is_input_point(chassis, name) {
        touched.note(address, words[address]);
    }
}

/// Sets the word of each declared input tag.
fn set_points(points: &[Point], layout: &Layout, inputs: &[i64], words: &mut Words)
    requires have { HaveWords layout.now }
    requires inputs { length inputs.now ≡ length (inputs_of points.now) }
    requires words { length words.old.list ≡ total_words layout.now }
    ensures list { words.new.list
        ≡ input_words layout.now (inputs_of points.now) inputs.now words.old.list }
    ensures spare { words.new.spare ≡ words.old.spare }
{
    let mut place = 0;
    for point in points {
        place = set_point(point, layout, inputs, place, words);
    }
}

/// Sets the word of a point's tag to the value at a place, if it is an input, and answers the place
/// of the next value.
fn set_point(
    point: &Point,
    layout: &Layout,
    inputs: &[i64],
    place: usize,
    words: &mut Words,
) -> usize
    requires have { HaveWords layout.now }
    requires inputs { place + length (inputs_of (point.now ∷ [])) ≤ length inputs.now }
    requires words { length words.old.list ≡ total_words layout.now }
    ensures place { result ≡ place + length (inputs_of (point.now ∷ [])) }
    ensures count { length words.new.list ≡ length words.old.list }
    ensures list { let values = drop place inputs.now in words.new.list
        ≡ input_words layout.now (inputs_of (point.now ∷ [])) values words.old.list }
    ensures spare { words.new.spare ≡ words.old.spare }
{
    if !is_input(point.kind) {
        return place;
    }
    set_word(point_address(layout, &point.name), inputs[place], words);
    place + 1
}

/// Adds the value of each output point.
fn take_points(points: &[Point], layout: &Layout, words: &[i64], outputs: &mut Words)
    requires have { HaveWords layout.now }
    requires words { length words.now ≡ total_words layout.now }
    requires room { length (outputs_of points.now) ≤ outputs.old.spare }
    ensures list { outputs.new.list
        ≡ outputs.old.list ++ map (output_in layout.now words.now) (outputs_of points.now) }
    ensures room { outputs.new.spare + length (outputs_of points.now) ≡ outputs.old.spare }
{
    for point in points {
        take_point(point, layout, words, outputs);
    }
}

/// Adds the value of a point, if it is an output.
fn take_point(point: &Point, layout: &Layout, words: &[i64], outputs: &mut Words)
    requires have { HaveWords layout.now }
    requires words { length words.now ≡ total_words layout.now }
    requires room { length (outputs_of (point.now ∷ [])) ≤ outputs.old.spare }
    ensures list { outputs.new.list
        ≡ outputs.old.list ++ map (output_in layout.now words.now) (outputs_of (point.now ∷ [])) }
    ensures room { outputs.new.spare + length (outputs_of (point.now ∷ [])) ≡ outputs.old.spare }
{
    if !is_input(point.kind) {
        outputs.add(value(&output_wire(point, layout), words));
    }
}
