ghost use Rattle.std.specs.Prelude.{◌≡◌, None, IfSome};
ghost use Rattle.st_build.specs.Building.{program_of, refusal_in, tags_at};
ghost use Rattle.st_build.specs.Inner.Kept.{IsKept};

use chassis::Chassis;
use scan_machine::Code;
use std::marker::Model;
use tag_layout::Layout;
use tag_wiring::{PointMark, Wiring};
use tri_base::Text;

/// A program that was built: its text, the layout of its tags, its code, and which words stand for
/// the points that it was built over.
#[derive(Drop)]
pub struct StProgram {
    pub(crate) text: Text,
    pub(crate) layout: Layout,
    pub(crate) code: Code,
    pub(crate) wiring: Wiring,
}

impl Model for StProgram {
    ghost use Rattle.std.specs.Prelude.{◌≡◌};
    ghost use Rattle.st_build.specs.Inner.Kept.{KeptProgram, IsKept};

    ghost Value = { KeptProgram };

    ghost view = { λ p. record { text = p.text.list; tags = p.layout; code = p.code } };

    ghost invariant = { λ p. record {
      kept : IsKept (record { text = p.text.list; tags = p.layout; code = p.code });
      wired : p.wiring.tags ≡ p.layout;
    } };
}

impl StProgram {
    /// Lends the text.
    pub(crate) fn text(&self) -> &Text
        ensures { result.now.list ≡ self.now.text }
    {
        &self.text
    }

    /// Lends the layout.
    pub(crate) fn layout(&self) -> &Layout
        ensures value { result.now ≡ self.now.tags }
        ensures kept { IsKept self.now }
    {
        &self.layout
    }

    /// Lends the wiring, if it is one to the points of a mark.
    pub(crate) fn wiring_to(&self, mark: &PointMark) -> Option<&Wiring>
        ensures { IfSome result (λ wiring.
            wiring.now ≡ record { points = mark.now; tags = self.now.tags }) }
    {
        if self.wiring.is_over(mark) {
            Some(&self.wiring)
        } else {
            None
        }
    }

    /// Lends the code.
    pub(crate) fn code(&self) -> &Code
        ensures value { result.now ≡ self.now.code }
        ensures kept { IsKept self.now }
    {
        &self.code
    }
}

/// Lends the layout of what is a program over these points too.
pub(crate) fn layout_over<'p>(chassis: &Chassis, program: &'p StProgram) -> &'p Layout
    requires { refusal_in (program_of chassis.now program.now.text) ≡ None }
    ensures { result.now ≡ tags_at chassis.now program.now.text }
{
    program.layout()
}
