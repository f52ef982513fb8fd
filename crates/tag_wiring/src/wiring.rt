ghost use Rattle.std.specs.Prelude.{◌≡◌, ◌≤◌, ◌↔◌, length, IfOk, IsTrue};
ghost use Rattle.tri_base.specs.Rows.{HasRoom, KeepsRoom};
ghost use Rattle.chassis.specs.Points.{inputs_of, outputs_of};
ghost use Rattle.tag_layout.specs.Layout.{total_words};
ghost use Rattle.tag_wiring.specs.PointWords.{AreDeclared, inputs_set, input_stores, outputs_from};

use crate::inputs::{note_words, set_words};
use crate::outputs::{OutputWire, take_words};
use crate::point_mark::PointMark;
use crate::tables::{input_addresses, output_wires, told_addresses};
use chassis::Chassis;
use std::alloc::Global;
use std::marker::Model;
use std::snapshot::Snapshot;
use tag_layout::Layout;
use tri_base::{NoMemory, Touched, Words};

/// Which words of a program's memory stand for the points of a chassis. It stands for the points
/// and the tags that the program declares.
#[derive(Drop)]
pub struct Wiring {
    // Tells the points that the addresses were looked up for.
    mark: PointMark,
    // And the tags. A snapshot has no bytes.
    tags: Snapshot<Layout>,
    // For each input point the address of its tag, if it is declared.
    inputs: Vec<Option<usize>>,
    // The address of each declared input tag, in order of declaration.
    told: Vec<usize>,
    // For each output point where its value comes from.
    outputs: Vec<OutputWire>,
}

impl Model for Wiring {
    ghost use Rattle.tag_wiring.specs.PointWords.{PointsAndTags};

    ghost Value = { PointsAndTags };

    ghost use Rattle.tag_wiring.specs.Inner.Kept.{IsKept};

    ghost view = { λ s. record { points = s.mark; tags = s.tags.value } };

    ghost invariant = { IsKept };
}

impl Wiring {
    /// Looks up the tag of each point, in time in step with the points and the tags.
    pub fn of(alloc: Global, chassis: &Chassis, layout: &Layout) -> Result<Wiring, NoMemory>
        requires { AreDeclared layout.now }
        ensures { IfOk result (λ w. w ≡ record { points = chassis.now; tags = layout.now }) }
    {
        let mark = PointMark::of(alloc, chassis)?;
        let points = chassis.points();
        let inputs = input_addresses(alloc, points, layout)?;
        let told = told_addresses(alloc, chassis, layout)?;
        let outputs = output_wires(alloc, points, layout)?;
        Ok(Wiring {
            mark,
            tags: Snapshot::of(layout),
            inputs,
            told,
            outputs,
        })
    }

    /// Whether these are the points of a mark. It takes the time of comparing two texts.
    pub fn is_over(&self, mark: &PointMark) -> bool
        ensures { IsTrue result ↔ (self.now.points ≡ mark.now) }
    {
        self.mark.is_same(mark)
    }

    /// Sets the word of each declared input tag to the value of its point, and tells the stores in
    /// order of declaration, with the numbers that stood there. The values are in the order of the
    /// input points. It empties `touched` first, takes no memory and looks up no name.
    pub fn set_inputs(&self, inputs: &[i64], words: &mut Words, touched: &mut Touched)
        requires inputs { length inputs.now ≡ length (inputs_of self.now.points) }
        requires words { length words.old.list ≡ total_words self.now.tags }
        requires touched { total_words self.now.tags ≤ touched.old.size }
        ensures words { words.new.list
            ≡ inputs_set self.now.points self.now.tags inputs.now words.old.list }
        ensures count { length words.new.list ≡ length words.old.list }
        ensures room { words.new.spare ≡ words.old.spare }
        ensures touched { touched.new.pairs
            ≡ input_stores self.now.points self.now.tags words.old.list }
        ensures size { touched.new.size ≡ touched.old.size }
    {
        touched.clear();
        note_words(self.told.as_slice(), words.items(), touched);
        set_words(self.inputs.as_slice(), inputs, words);
    }

    /// Takes the value of each output point from its tag's word, in the order of the output points:
    /// clamped to the tag's type and then to the point's range, and 0 where the tag isn't declared.
    /// It empties `outputs` first, takes no memory and looks up no name.
    pub fn take_outputs(&self, words: &[i64], outputs: &mut Words)
        requires words { length words.now ≡ total_words self.now.tags }
        requires room { HasRoom (length (outputs_of self.now.points)) outputs.old }
        ensures list { outputs.new.list ≡ outputs_from self.now.points self.now.tags words.now }
        ensures room { KeepsRoom outputs.old outputs.new }
    {
        outputs.clear();
        take_words(self.outputs.as_slice(), words, outputs);
    }
}
