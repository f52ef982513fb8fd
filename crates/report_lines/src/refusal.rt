ghost use Rattle.std.specs.Prelude.{◌≡◌, ◌++◌, OnOk, pos, codes};
ghost use Rattle.std.specs.Fmt.{signed_decimal};
ghost use Rattle.tri_base.specs.Rows.{KeepsRoom};
ghost use Rattle.report_lines.specs.Lines.{spaced};
ghost use Rattle.report_lines.specs.Refusals.{counted, lex_cause_text, named, placed, refusal_text, type_cause_text};

use crate::line::push_spaced;
use engine_face::Refusal;
use itoa::Buffer;
use tri_base::{LexCause, Name, NoMemory, Text, TypeCause, push_bytes};

/// Adds the text of a refusal: its word, and where and why it holds. NoMemory has none. Where
/// memory fails, a part of the text may stand there.
pub fn push_refusal(text: &mut Text, refusal: &Refusal) -> Result<(), NoMemory>
    ensures text { OnOk result (text.new.list ≡ text.old.list ++ refusal_text refusal.now) }
    ensures room { KeepsRoom text.old text.new }
{
    match refusal {
        Refusal::TooLarge => push_bytes(text, b"LARGE"),
        Refusal::Lex { place, cause } => push_placed(text, b"LEX", *place, lex_cause(*cause)),
        Refusal::TooDeep { token } => push_counted(text, b"DEEP", *token),
        Refusal::Syntax { token } => push_counted(text, b"SYNTAX", *token),
        Refusal::Typing(fault) => {
            push_placed(text, b"TYPING", fault.place, type_cause(fault.cause))
        }
        Refusal::TooManyWords { words } => push_counted(text, b"WORDS", *words),
        Refusal::TooLong { cost } => push_cost(text, *cost),
        Refusal::RenameUnknown(name) => push_named(text, b"RENAMEUNKNOWN", name),
        Refusal::RenameTwice(name) => push_named(text, b"RENAMETWICE", name),
        Refusal::KindChanged(name) => push_named(text, b"KIND", name),
        Refusal::NoMemory => Ok(()),
    }
}

/// Adds the word LONG and how many instructions a scan may take.
fn push_cost(text: &mut Text, cost: i64) -> Result<(), NoMemory>
    ensures text { OnOk result (text.new.list ≡ text.old.list ++ (codes "LONG" ++ spaced cost)) }
    ensures room { KeepsRoom text.old text.new }
{
    push_bytes(text, b"LONG")?;
    push_spaced(text, cost)
}

/// Adds a word and a number that isn't below 0.
fn push_counted(text: &mut Text, word: &[u8], number: usize) -> Result<(), NoMemory>
    ensures text { OnOk result (text.new.list ≡ text.old.list ++ counted word.now number) }
    ensures room { KeepsRoom text.old text.new }
{
    push_bytes(text, word)?;
    push_bytes(text, b" ")?;
    push_count(text, number)
}

/// Adds a word, the place of a fault and its cause.
fn push_placed(text: &mut Text, word: &[u8], place: usize, cause: &[u8]) -> Result<(), NoMemory>
    ensures text { OnOk result (text.new.list ≡ text.old.list ++ placed word.now place cause.now) }
    ensures room { KeepsRoom text.old text.new }
{
    push_counted(text, word, place)?;
    push_bytes(text, b" ")?;
    push_bytes(text, cause)
}

/// Adds a word and a name.
fn push_named(text: &mut Text, word: &[u8], name: &Name) -> Result<(), NoMemory>
    ensures text { OnOk result (text.new.list ≡ text.old.list ++ named word.now name.now) }
    ensures room { KeepsRoom text.old text.new }
{
    push_bytes(text, word)?;
    push_bytes(text, b" ")?;
    push_bytes(text, name.bytes())
}

/// Adds the shortest decimal text of a number that isn't below 0. It may lie above all signed ones.
fn push_count(text: &mut Text, number: usize) -> Result<(), NoMemory>
    ensures text { OnOk result (text.new.list ≡ text.old.list ++ signed_decimal (pos number)) }
    ensures room { KeepsRoom text.old text.new }
{
    let mut buffer = Buffer::new();
    push_bytes(text, buffer.format(number).as_bytes())
}

/// The name of a cause in capital letters.
fn lex_cause(cause: LexCause) -> &'static [u8]
    ensures { result.now ≡ lex_cause_text cause }
{
    match cause {
        LexCause::BadByte => b"BADBYTE",
        LexCause::OpenComment => b"OPENCOMMENT",
        LexCause::BadNumber => b"BADNUMBER",
        LexCause::NumberTooLarge => b"NUMBERTOOLARGE",
        LexCause::NameTooLong => b"NAMETOOLONG",
    }
}

/// The name of a cause in capital letters.
fn type_cause(cause: TypeCause) -> &'static [u8]
    ensures { result.now ≡ type_cause_text cause }
{
    match cause {
        TypeCause::UnknownName => b"UNKNOWNNAME",
        TypeCause::Twice => b"TWICE",
        TypeCause::NoSuchPoint => b"NOSUCHPOINT",
        TypeCause::PointKind => b"POINTKIND",
        TypeCause::WrongType => b"WRONGTYPE",
        TypeCause::NotAssignable => b"NOTASSIGNABLE",
        TypeCause::BadField => b"BADFIELD",
        TypeCause::ArgumentCount => b"ARGUMENTCOUNT",
        TypeCause::ZeroStep => b"ZEROSTEP",
        TypeCause::LoopTag => b"LOOPTAG",
        TypeCause::ExitOutside => b"EXITOUTSIDE",
        TypeCause::LiteralRange => b"LITERALRANGE",
    }
}
