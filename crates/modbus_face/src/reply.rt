ghost use Rattle.std.specs.Prelude.{◌≡◌, ◌≤◌, ◌++◌, length, IfOk, IsOk, None, OnErr, OnOk, Some};
ghost use Rattle.tri_base.specs.Rows.{KeepsRoom};
ghost use Rattle.modbus_face.specs.Reads.{data_of, kind_read, limit_of};
ghost use Rattle.modbus_face.specs.Replies.{Answers, exception, pdu_of, reply_of, response, with_top_bit};

use crate::frame::{is_framed, number_at, push_framed};
use crate::reads::{kind_read, limit_of, push_data, seen};
use chassis::Chassis;
use std::alloc::Global;
use tri_base::{NoMemory, Point, PointKind, Text, Words, push_bytes};

const ILLEGAL_FUNCTION: u8 = 1;

const ILLEGAL_DATA_ADDRESS: u8 = 2;

const ILLEGAL_DATA_VALUE: u8 = 3;

/// Answers a Modbus request, from the MBAP header on: adds the reply and gives TRUE; FALSE, with
/// nothing added, exactly where the request isn't framed. `inputs` has the voted value of each
/// input and `outputs` the field output of each output, in the order of the chassis; a point
/// without a value isn't seen. At NoMemory nothing is added. It takes memory for the values that
/// are read, and for the reply twice. Modbus application protocol and Modbus messaging on TCP/IP.
#[tactic(auto, using(crate::proofs::Lengths::short_pdu))]
pub fn answer(
    alloc: Global,
    request: &[u8],
    chassis: &Chassis,
    inputs: &Words,
    outputs: &Words,
    reply: &mut Text,
) -> Result<bool, NoMemory>
    ensures answer { IfOk result (λ answer. Answers
        (reply_of request.now chassis.now inputs.now.list outputs.now.list)
        answer reply.old.list reply.new.list) }
    ensures unframed { reply_of request.now chassis.now inputs.now.list outputs.now.list ≡ None
        → IsOk result }
    ensures room { KeepsRoom reply.old reply.new }
    ensures refused { OnErr result (reply.new ≡ reply.old) }
{
    if !is_framed(request) {
        return Ok(false);
    }
    let mut pdu = Text::new(alloc);
    push_pdu(
        alloc,
        request[7],
        &request[8..],
        chassis.points(),
        inputs,
        outputs,
        &mut pdu,
    )?;
    push_framed(reply, [request[0], request[1]], request[6], pdu.bytes())?;
    Ok(true)
}

/// Adds the PDU that answers a function.
fn push_pdu(
    alloc: Global,
    function: u8,
    parameters: &[u8],
    points: &[Point],
    inputs: &Words,
    outputs: &Words,
    pdu: &mut Text,
) -> Result<(), NoMemory>
    ensures { OnOk result (pdu.new.list ≡ pdu.old.list ++ pdu_of (kind_read function) function
        parameters.now points.now inputs.now.list outputs.now.list) }
{
    let Some(kind) = kind_read(function) else {
        return push_exception(pdu, function, ILLEGAL_FUNCTION);
    };
    if parameters.len() != 4 {
        return push_exception(pdu, function, ILLEGAL_DATA_VALUE);
    }
    let address = number_at(parameters, 0);
    let count = number_at(parameters, 2);
    if count == 0 || limit_of(kind) < count {
        return push_exception(pdu, function, ILLEGAL_DATA_VALUE);
    }
    let seen = seen(alloc, kind, points, inputs, outputs)?;
    if seen.len() < address + count {
        return push_exception(pdu, function, ILLEGAL_DATA_ADDRESS);
    }
    push_response(
        alloc,
        function,
        kind,
        &seen.items()[address..][..count],
        pdu,
    )
}

/// Adds the PDU of an exception response.
fn push_exception(pdu: &mut Text, function: u8, code: u8) -> Result<(), NoMemory>
    ensures { OnOk result (pdu.new.list ≡ pdu.old.list ++ exception function code) }
{
    push_bytes(pdu, &[with_top_bit(function), code])
}

/// A function code with its top bit set.
fn with_top_bit(function: u8) -> u8
    ensures { result ≡ with_top_bit function }
{
    if function < 128 {
        function + 128
    } else {
        function
    }
}

/// Adds the PDU of a response with the data of some values.
#[tactic(auto, using(crate::proofs::Lengths::few_bytes))]
fn push_response(
    alloc: Global,
    function: u8,
    kind: PointKind,
    values: &[i64],
    pdu: &mut Text,
) -> Result<(), NoMemory>
    requires { length values.now ≤ limit_of (Some kind) }
    ensures { OnOk result
        (pdu.new.list ≡ pdu.old.list ++ response function (data_of (Some kind) values.now)) }
{
    let mut data = Text::new(alloc);
    push_data(&mut data, kind, values)?;
    push_bytes(pdu, &[function, data.len() as u8])?;
    push_bytes(pdu, data.bytes())
}
