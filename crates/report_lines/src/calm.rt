ghost use Rattle.std.specs.Prelude.{◌≡◌, ◌++◌, OnOk};
ghost use Rattle.tri_base.specs.Rows.{KeepsRoom};
ghost use Rattle.report_lines.specs.Calm.{calm_line};

use crate::line::push_led_line;
use tri_base::{NoMemory, Text, push_bytes};

/// Adds the line of whether all scans were calm; `uncalm` is the first that wasn't. Where memory
/// fails, a part of it may stand there.
pub fn push_calm(text: &mut Text, uncalm: Option<u32>) -> Result<(), NoMemory>
    ensures text { OnOk result (text.new.list ≡ text.old.list ++ calm_line uncalm) }
    ensures room { KeepsRoom text.old text.new }
{
    match uncalm {
        None => push_bytes(text, b"CALM YES\n"),
        Some(scan) => push_led_line(text, b"CALM NO", i64::from(scan), &[]),
    }
}
