ghost use Rattle.std.specs.Prelude.{◌≡◌, ◌≤◌, ◌<◌, ◌+◌, ◌++◌, length, true, OnOk, OnErr};
ghost use Rattle.tri_base.specs.Rows.{KeepsRoom};
ghost use Rattle.modbus_face.specs.Frames.{framed, is_framed, number_at};

use tri_base::{NoMemory, Text, push_bytes};

// The MBAP header and a function code.
const LEAST_REQUEST: usize = 8;

// The MBAP header and the longest PDU.
const GREATEST_REQUEST: usize = 260;

/// Whether a request is framed: it has 8 to 260 bytes, the protocol 0, and in its length field the
/// number of the bytes after that field.
pub fn is_framed(request: &[u8]) -> bool
    ensures { result ≡ is_framed request.now }
{
    LEAST_REQUEST <= request.len()
        && request.len() <= GREATEST_REQUEST
        && number_at(request, 2) == 0
        && number_at(request, 4) + 6 == request.len()
}

/// The number of 16 bits at a place, the high byte first.
pub fn number_at(bytes: &[u8], place: usize) -> usize
    requires { place + 1 < length bytes.now }
    ensures value { result ≡ number_at bytes.now place }
    ensures short { result ≤ 65535 }
{
    256 * usize::from(bytes[place]) + usize::from(bytes[place + 1])
}

/// Adds a frame, all of it or nothing: a transaction, the protocol 0, the length of what follows, a
/// unit and a PDU of at most 253 bytes.
pub fn push_framed(
    text: &mut Text,
    transaction: [u8; 2],
    unit: u8,
    pdu: &[u8],
) -> Result<(), NoMemory>
    requires { length pdu.now ≤ 253 }
    ensures text { OnOk result (text.new.list ≡ text.old.list ++ framed transaction unit pdu.now) }
    ensures room { KeepsRoom text.old text.new }
    ensures refused { OnErr result (text.new ≡ text.old) }
{
    let [high, low] = transaction;
    let head = [high, low, 0, 0, 0, (1 + pdu.len()) as u8, unit];
    text.reserve(head.len() + pdu.len())?;
    push_bytes(text, &head).unwrap();
    push_bytes(text, pdu).unwrap();
    Ok(())
}
