ghost use Rattle.std.specs.Prelude.{◌≡◌, ◌+◌, ◌<◌, ◌^◌, length, IfOk};
ghost use Rattle.script_lines.specs.Lines.{lines_of};
ghost use Rattle.cause_effect.specs.Matrices.{IsMatrix};
ghost use Rattle.cause_effect.specs.Spells.{IsReading};
ghost use Rattle.cause_effect.specs.Inner.Steps.{fault_at};

use crate::fault::{LineFault, MatrixFault};
use crate::matrix::Matrix;
use crate::reader::Reader;
use script_lines::{content, cut_line};
use std::alloc::Global;
use tri_base::Text;

/// The matrix that a text spells, or the first line that no matrix has there, with its cause.
pub fn read_matrix(alloc: Global, text: &Text) -> Result<Matrix, MatrixFault>
    requires { length (lines_of text.now.list) + 1 < 2 ^ 32 }
    ensures reading { IsReading text.now.list result }
    ensures matrix { IfOk result (λ matrix. IsMatrix matrix) }
{
    read_bytes(alloc, text.bytes())
}

/// The same of bytes.
fn read_bytes(alloc: Global, bytes: &[u8]) -> Result<Matrix, MatrixFault>
    requires { length (lines_of bytes.now) + 1 < 2 ^ 32 }
    ensures { IsReading bytes.now result }
{
    let mut reader = Reader::new(alloc);
    let mut lines: u32 = 0;
    let mut rest = bytes;
    while !rest.is_empty() {
        let (line, behind) = cut_line(rest);
        lines += 1;
        if let Err(fault) = reader.take(content(line)) {
            return Err(fault_of(lines, fault));
        }
        rest = behind;
    }
    reader.finish(lines)
}

/// A line's fault with its number.
fn fault_of(line: u32, fault: LineFault) -> MatrixFault
    ensures { result ≡ fault_at line fault }
{
    match fault {
        LineFault::Cause(cause) => MatrixFault::At { line, cause },
        LineFault::NoMemory => MatrixFault::NoMemory,
    }
}
