//! The code of a program.

ghost use Rattle.std.specs.Prelude.{◌≡◌, ◌≤◌, [], IfOk};
ghost use Rattle.st_tree.specs.Tags.{tags_of};
ghost use Rattle.st_tree.specs.Nesting.{nesting_limit};
ghost use Rattle.st_tree.specs.TreeNesting.{body_nesting};
ghost use Rattle.st_core.specs.Compiled.{IsCodeOf};
ghost use Rattle.st_core.specs.Fits.{ActFits, IsSound};
ghost use Rattle.st_core.specs.Codes.{body_code};
ghost use Rattle.st_meaning.specs.Programs.{body_of};
ghost use Rattle.st_meaning.specs.Statements.{acts_of};
ghost use Rattle.tag_layout.specs.Layout.{total_words};
ghost use Rattle.st_sound.specs.Shapes.{shape_in};
ghost use Rattle.scan_code.specs.Compiling.{Compiles, code_in};

use crate::code::ahead;
use crate::statements::emit_block;
use code_size::{cost_of_block, size_of_block};
use scan_machine::{Code, Instr};
use st_tree::{Statement, Tree, Typed};
use std::alloc::Global;
use tag_layout::Layout;
use tri_base::NoMemory;

/// The most instructions that a scan of a program may take.
pub const COST_LIMIT: usize = 1_000_000;

/// Why there is no code.
#[derive(Clone, Copy, Debug, PartialEq, Eq)]
pub enum CodeFault {
    /// A scan may take more instructions than the 1,000,000 that are allowed.
    TooLong {
        /// How many it may take, or 9,223,372,036,854,775,807 where that is less.
        cost: i64,
    },
    /// There is no memory for the code.
    NoMemory,
}

/// The verified code of a program. TooLong comes exactly where a scan of it may cost more than
/// 1,000,000. Each program has one code.
pub fn compile(alloc: Global, typed: &Typed, layout: &Layout) -> Result<Code, CodeFault>
    requires laid { layout.now ≡ tags_of typed.now.tree }
    requires shallow { body_nesting typed.now.tree.statements ≤ nesting_limit }
    ensures compiles { Compiles typed.now.tree result }
    ensures is { IfOk result (λ code. code.list ≡ code_in typed.now.tree) }
{
    compile_sound(alloc, typed.tree(), layout)
}

// The same of a program whose statements are sound.
fn compile_sound(alloc: Global, tree: &Tree, layout: &Layout) -> Result<Code, CodeFault>
    requires laid { layout.now ≡ tags_of tree.now }
    requires sound { IsSound (shape_in (tags_of tree.now)) [] (body_of tree.now) }
    requires shallow { body_nesting tree.now.statements ≤ nesting_limit }
    ensures compiles { Compiles tree.now result }
    ensures is { IfOk result (λ code. code.list ≡ code_in tree.now) }
{
    let statements = tree.statements.as_slice();
    let cost = cost_of_block(statements);
    if cost > COST_LIMIT {
        return Err(CodeFault::TooLong { cost: cost as i64 });
    }
    match assemble(alloc, layout, statements) {
        Ok(code) => Ok(code),
        Err(_) => Err(CodeFault::NoMemory),
    }
}

// Verified code that does what the statements do.
fn assemble(alloc: Global, layout: &Layout, statements: &[Statement]) -> Result<Code, NoMemory>
    requires fits { let act = acts_of layout.now statements.now in
        ActFits (shape_in layout.now) [] act }
    ensures is { let act = acts_of layout.now statements.now in
        IfOk result (λ code. code.list ≡ body_code (shape_in layout.now) act) }
    ensures does { let act = acts_of layout.now statements.now in
        IfOk result (λ code. IsCodeOf (shape_in layout.now) act code.list) }
    ensures words { IfOk result (λ code. code.words ≡ total_words layout.now) }
{
    let mut code: Vec<Instr> = Vec::new(alloc);
    let finish = ahead(0, size_of_block(statements))?;
    emit_block(&mut code, layout, statements, 0, finish)?;
    match Code::verify(code, layout.words()) {
        Ok(code) => Ok(code),
        Err(_) => unreachable!(),
    }
}
