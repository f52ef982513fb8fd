ghost use Rattle.std.specs.Prelude.{◌≡◌, ◌++◌, IfOk, OnErr, OnOk};
ghost use Rattle.tri_base.specs.Rows.{KeepsRoom};
ghost use Rattle.hex.specs.Hex.{encode_upper};
ghost use Rattle.modbus_face.specs.Replies.{reply_of};
ghost use Rattle.modbus_face.specs.ReplyLines.{reply_line, reply_text};

use crate::reply::answer;
use chassis::Chassis;
use hex::encode_upper;
use std::alloc::Global;
use tri_base::{NoMemory, Text, Words, push_bytes, push_number};

/// Answers a Modbus request and adds the line that tells the reply, all of it or nothing: the
/// scan's number, a space, and the reply in capital hexadecimal digits, or NONE where the request
/// isn't framed. `inputs` and `outputs` are as in `answer`. It takes memory for the reply and the
/// line, too.
pub fn write_reply_line(
    alloc: Global,
    scan: u32,
    request: &[u8],
    chassis: &Chassis,
    inputs: &Words,
    outputs: &Words,
    text: &mut Text,
) -> Result<(), NoMemory>
    ensures text { OnOk result (text.new.list ≡ text.old.list ++ reply_line scan
        (reply_of request.now chassis.now inputs.now.list outputs.now.list)) }
    ensures room { KeepsRoom text.old text.new }
    ensures refused { OnErr result (text.new ≡ text.old) }
{
    let mut line = Text::new(alloc);
    push_number(&mut line, i64::from(scan))?;
    push_bytes(&mut line, b" ")?;
    push_reply(alloc, request, chassis, inputs, outputs, &mut line)?;
    push_bytes(&mut line, b"\n")?;
    push_bytes(text, line.bytes())
}

/// Adds a reply as the line tells it.
fn push_reply(
    alloc: Global,
    request: &[u8],
    chassis: &Chassis,
    inputs: &Words,
    outputs: &Words,
    line: &mut Text,
) -> Result<(), NoMemory>
    ensures { OnOk result (line.new.list ≡ line.old.list ++ reply_text
        (reply_of request.now chassis.now inputs.now.list outputs.now.list)) }
{
    let mut reply = Text::new(alloc);
    if answer(alloc, request, chassis, inputs, outputs, &mut reply)? {
        push_hex(alloc, line, reply.bytes())
    } else {
        push_bytes(line, b"NONE")
    }
}

/// Adds bytes as capital hexadecimal digits.
fn push_hex(alloc: Global, line: &mut Text, bytes: &[u8]) -> Result<(), NoMemory>
    ensures { OnOk result (line.new.list ≡ line.old.list ++ encode_upper bytes.now) }
{
    let digits = encode_upper(alloc, bytes)?;
    push_bytes(line, digits.as_bytes())
}
