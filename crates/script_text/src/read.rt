ghost use Rattle.std.specs.Prelude.{◌≡◌, ◌+◌, ◌<◌, ◌^◌, length};
ghost use Rattle.script_lines.specs.Lines.{lines_of};
ghost use Rattle.script_text.specs.Spells.{IsReading};
ghost use Rattle.script_text.specs.Inner.Steps.{fault_at};

use crate::fault::{LineFault, ScriptFault};
use crate::reader::Reader;
use crate::script::Script;
use script_lines::{content, cut_line};
use std::alloc::Global;
use tri_base::Text;

/// The script that a text spells, or the first line that no script has there, with its cause.
pub fn read_script(alloc: Global, text: &Text) -> Result<Script, ScriptFault>
    requires { length (lines_of text.now.list) + 1 < 2 ^ 32 }
    ensures { IsReading text.now.list result }
{
    read_bytes(alloc, text.bytes())
}

/// The same of bytes.
fn read_bytes(alloc: Global, bytes: &[u8]) -> Result<Script, ScriptFault>
    requires { length (lines_of bytes.now) + 1 < 2 ^ 32 }
    ensures { IsReading bytes.now result }
{
    let mut reader = Reader::new(alloc);
    let mut rest = bytes;
    while !rest.is_empty() {
        let (line, behind) = cut_line(rest);
        if let Err(fault) = reader.take(content(line)) {
            return Err(fault_of(reader.line(), fault));
        }
        rest = behind;
    }
    reader.finish()
}

/// A line's fault with its number.
fn fault_of(line: u32, fault: LineFault) -> ScriptFault
    ensures { result ≡ fault_at line fault }
{
    match fault {
        LineFault::Cause(cause) => ScriptFault::At { line, cause },
        LineFault::NoMemory => ScriptFault::NoMemory,
    }
}
