ghost use Rattle.std.specs.Fmt.{signed_decimal};
ghost use Rattle.std.specs.Prelude.{◌≡◌, ◌++◌, OnOk, pos};
ghost use Rattle.tri_base.specs.Rows.{KeepsRoom};
ghost use Rattle.tricon.specs.Statuses.{cause_text, chassis_fault_text, matrix_cause_text, script_cause_text};

use crate::status::RefusedCause;
use cause_effect::MatrixCause;
use chassis::ChassisFault;
use itoa::Buffer;
use plant_script::ScriptCause;
use report_lines::push_refusal;
use tri_base::{NoMemory, Text, push_bytes};

/// Adds the words that tell why a script or a matrix is refused, or some of them.
pub(crate) fn push_cause(cause: &RefusedCause, text: &mut Text) -> Result<(), NoMemory>
    ensures line { OnOk result (text.new.list ≡ text.old.list ++ cause_text cause.now) }
    ensures room { KeepsRoom text.old text.new }
{
    match cause {
        RefusedCause::Script(cause) => push_script_cause(*cause, text),
        RefusedCause::Program(refusal) => {
            push_bytes(text, b"PROGRAM ")?;
            push_refusal(text, refusal)
        }
        RefusedCause::Matrix(cause) => push_matrix_cause(*cause, text),
        RefusedCause::MatrixTooLarge { bytes } => {
            push_bytes(text, b"MATRIX LARGE ")?;
            push_size(text, *bytes)
        }
    }
}

/// Adds the words that tell which rule of scripts a line breaks, or some of them.
fn push_script_cause(cause: ScriptCause, text: &mut Text) -> Result<(), NoMemory>
    ensures line { OnOk result (text.new.list ≡ text.old.list ++ script_cause_text cause) }
    ensures room { KeepsRoom text.old text.new }
{
    match cause {
        ScriptCause::Word => push_bytes(text, b"WORD"),
        ScriptCause::Form => push_bytes(text, b"FORM"),
        ScriptCause::Chassis(fault) => push_chassis_fault(fault, text),
        ScriptCause::Order => push_bytes(text, b"ORDER"),
        ScriptCause::Point => push_bytes(text, b"POINT"),
        ScriptCause::Range => push_bytes(text, b"RANGE"),
        ScriptCause::Second => push_bytes(text, b"SECOND"),
        ScriptCause::End => push_bytes(text, b"END"),
    }
}

/// Adds the words that tell why the chassis can't have a point, or some of them.
fn push_chassis_fault(fault: ChassisFault, text: &mut Text) -> Result<(), NoMemory>
    ensures line { OnOk result (text.new.list ≡ text.old.list ++ chassis_fault_text fault) }
    ensures room { KeepsRoom text.old text.new }
{
    match fault {
        ChassisFault::BadRange => push_bytes(text, b"CHASSIS RANGE"),
        ChassisFault::Twice(name) => {
            push_bytes(text, b"CHASSIS TWICE ")?;
            push_bytes(text, name.bytes())
        }
        ChassisFault::Full => push_bytes(text, b"CHASSIS FULL"),
        ChassisFault::NoMemory => Ok(()),
    }
}

/// Adds the words that tell which rule of matrices a line breaks.
fn push_matrix_cause(cause: MatrixCause, text: &mut Text) -> Result<(), NoMemory>
    ensures line { OnOk result (text.new.list ≡ text.old.list ++ matrix_cause_text cause) }
    ensures room { KeepsRoom text.old text.new }
{
    match cause {
        MatrixCause::Word => push_bytes(text, b"MATRIX WORD"),
        MatrixCause::Form => push_bytes(text, b"MATRIX FORM"),
        MatrixCause::Reserved => push_bytes(text, b"MATRIX RESERVED"),
        MatrixCause::Twice => push_bytes(text, b"MATRIX TWICE"),
        MatrixCause::Unknown => push_bytes(text, b"MATRIX UNKNOWN"),
        MatrixCause::Full => push_bytes(text, b"MATRIX FULL"),
        MatrixCause::End => push_bytes(text, b"MATRIX END"),
    }
}

/// Adds a number's decimal digits.
fn push_size(text: &mut Text, number: usize) -> Result<(), NoMemory>
    ensures line { OnOk result (text.new.list ≡ text.old.list ++ signed_decimal (pos number)) }
    ensures room { KeepsRoom text.old text.new }
{
    let mut digits = Buffer::new();
    push_bytes(text, digits.format(number).as_bytes())
}
