//! From texts to programs.

ghost use Rattle.std.specs.Prelude.{◌≡◌, ◌≤◌};
ghost use Rattle.st_tree.specs.Tags.{tags_of};
ghost use Rattle.st_tree.specs.Nesting.{nesting_limit};
ghost use Rattle.st_tree.specs.TreeNesting.{body_nesting};
ghost use Rattle.engine_face.specs.Answers.{Builds};
ghost use Rattle.st_front.specs.FrontEnd.{HasTree};
ghost use Rattle.st_build.specs.Building.{program_of, refusal_in};
ghost use Rattle.st_build.specs.Inner.Kept.{KeptProgram, IsCoded, Finishes};

use crate::program::StProgram;
use chassis::Chassis;
use engine_face::Refusal;
use scan_code::{CodeFault, compile};
use scan_machine::Code;
use st_front::front;
use st_tree::Typed;
use std::alloc::Global;
use tag_layout::Layout;
use tag_wiring::Wiring;
use tri_base::Text;

/// The code of a program whose tags are laid out so.
fn compile_code(alloc: Global, typed: &Typed, layout: &Layout) -> Result<Code, Refusal>
    requires laid { layout.now ≡ tags_of typed.now.tree }
    requires shallow { body_nesting typed.now.tree.statements ≤ nesting_limit }
    ensures { IsCoded typed.now.tree result }
{
    match compile(alloc, typed, layout) {
        Ok(code) => Ok(code),
        Err(CodeFault::TooLong { cost }) => Err(Refusal::TooLong { cost }),
        Err(CodeFault::NoMemory) => Err(Refusal::NoMemory),
    }
}

/// The program of a text whose tree is well typed and laid out so.
fn finish_program(
    alloc: Global,
    chassis: &Chassis,
    text: &Text,
    typed: Typed,
    layout: Layout,
) -> Result<StProgram, Refusal>
    requires laid { layout ≡ tags_of typed.tree }
    requires has { HasTree text.now.list typed.tree }
    ensures { Finishes typed.tree text.now.list result }
{
    let code = compile_code(alloc, &typed, &layout)?;
    let Ok(wiring) = Wiring::of(alloc, chassis, &layout) else {
        return Err(Refusal::NoMemory);
    };
    match text.copy(alloc) {
        Ok(text) => Ok(StProgram {
            text,
            layout,
            code,
            wiring,
        }),
        Err(_) => Err(Refusal::NoMemory),
    }
}

/// The program that a text is over the points of a chassis, or the first refusal.
pub(crate) fn build_program(
    alloc: Global,
    chassis: &Chassis,
    text: &Text,
) -> Result<StProgram, Refusal>
    ensures { let text_of = λ (p : KeptProgram). p.text in
        Builds text_of (refusal_in (program_of chassis.now text.now.list)) text.now.list result }
{
    match front(alloc, chassis, text) {
        Ok((typed, layout)) => finish_program(alloc, chassis, text, typed, layout),
        Err(refusal) => Err(refusal),
    }
}
