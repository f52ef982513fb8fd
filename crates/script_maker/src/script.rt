ghost use Rattle.std.specs.Prelude.{◌≡◌, ◌≤◌, IfOk};
ghost use Rattle.tri_base.specs.Limits.{scan_limit};
ghost use Rattle.script_maker.specs.Generated.{generated};

use crate::moments::make_moments;
use crate::plant::make_plant;
use crate::program::make_program;
use script_lines::Legs;
use script_text::Script;
use std::alloc::Global;
use tri_base::NoMemory;

// The line of the word TEXT, behind the heading and 512 points.
const TEXT_LINE: u32 = 514;

/// A script of 1 to 2,000 scans with 512 points and a program of 16,384 bytes, in which draws from
/// a number of 32 bits decide what the inputs read.
pub fn make_script(alloc: Global, number: u32, scans: u32) -> Result<Script, NoMemory>
    requires { (1 ≤ scans) × (scans ≤ scan_limit) }
    ensures { IfOk result (λ script. script ≡ generated number scans) }
{
    let chassis = make_plant(alloc)?;
    let program = make_program(alloc)?;
    let moments = make_moments(alloc, number, scans, &program)?;
    let schedule = Legs::new(alloc);
    let swap_lines = Vec::new(alloc);
    Ok(Script::of(
        chassis, program, schedule, scans, moments, TEXT_LINE, swap_lines,
    ))
}
