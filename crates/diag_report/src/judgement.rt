ghost use Rattle.std.specs.Prelude.{◌≡◌, ◌++◌, OnOk, codes};
ghost use Rattle.report_lines.specs.Refusals.{counted, named, refusal_text};
ghost use Rattle.diag_report.specs.Judgements.{judgement_line, judgement_text, leg_letter, verdict_line, verdict_text};

use engine_face::{Refusal, Verdict};
use report_lines::{push_refusal, push_spaced};
use tri_base::{Judged, Leg, NoMemory, Text, push_bytes};

/// Adds the line of a leg's verdict, where the scan has a download.
pub(crate) fn push_verdict(
    text: &mut Text,
    leg: Leg,
    verdict: &Option<Verdict>,
) -> Result<(), NoMemory>
    ensures { OnOk result (text.new.list ≡ text.old.list ++ verdict_line leg verdict.now) }
{
    match verdict {
        None => Ok(()),
        Some(verdict) => push_verdict_line(text, leg, verdict),
    }
}

/// Adds the line of what a leg made of a download.
fn push_verdict_line(text: &mut Text, leg: Leg, verdict: &Verdict) -> Result<(), NoMemory>
    ensures { OnOk result (text.new.list ≡ text.old.list ++ verdict_line leg (Some verdict.now)) }
{
    push_lettered(text, b"VERDICT", leg)?;
    push_bytes(text, b" ")?;
    push_verdict_text(text, verdict)?;
    push_bytes(text, b"\n")
}

/// Adds what a leg made of a download.
fn push_verdict_text(text: &mut Text, verdict: &Verdict) -> Result<(), NoMemory>
    ensures { OnOk result (text.new.list ≡ text.old.list ++ verdict_text verdict.now) }
{
    match verdict {
        Verdict::Accepted => push_bytes(text, b"ACCEPTED"),
        Verdict::Refused(refusal) => push_refused(text, refusal),
        Verdict::Learning => push_bytes(text, b"NONE"),
    }
}

/// Adds that a download is refused, and why.
fn push_refused(text: &mut Text, refusal: &Refusal) -> Result<(), NoMemory>
    ensures { OnOk result
        (text.new.list ≡ text.old.list ++ named (codes "REFUSED") (refusal_text refusal.now)) }
{
    push_bytes(text, b"REFUSED ")?;
    push_refusal(text, refusal)
}

/// Adds the line of what a leg was judged.
pub(crate) fn push_judgement(text: &mut Text, leg: Leg, judged: Judged) -> Result<(), NoMemory>
    ensures { OnOk result (text.new.list ≡ text.old.list ++ judgement_line leg judged) }
{
    push_lettered(text, b"LEG", leg)?;
    push_bytes(text, b" ")?;
    push_judged(text, judged)?;
    push_bytes(text, b"\n")
}

/// Adds what a leg was judged.
pub(crate) fn push_judged(text: &mut Text, judged: Judged) -> Result<(), NoMemory>
    ensures { OnOk result (text.new.list ≡ text.old.list ++ judgement_text judged) }
{
    match judged {
        Judged::Agrees => push_bytes(text, b"AGREES"),
        Judged::Accuses(accused) => push_lettered(text, b"ACCUSES", accused),
        Judged::Minority => push_bytes(text, b"MINORITY"),
        Judged::NoVote => push_bytes(text, b"NOVOTE"),
        Judged::Waiting => push_bytes(text, b"WAITING"),
        Judged::Learned(windows) => push_learned(text, windows),
        Judged::Ready => push_bytes(text, b"READY"),
        Judged::Rejected => push_bytes(text, b"REJECTED"),
    }
}

/// Adds how many windows a leg has that learns.
fn push_learned(text: &mut Text, windows: u32) -> Result<(), NoMemory>
    ensures { OnOk result (text.new.list ≡ text.old.list ++ counted (codes "LEARN") windows) }
{
    push_bytes(text, b"LEARN")?;
    push_spaced(text, i64::from(windows))
}

/// Adds a word and a leg's letter.
pub(crate) fn push_lettered(text: &mut Text, word: &[u8], leg: Leg) -> Result<(), NoMemory>
    ensures { OnOk result (text.new.list ≡ text.old.list ++ named word.now (leg_letter leg)) }
{
    push_bytes(text, word)?;
    push_letter(text, leg)
}

/// Adds a space and a leg's letter.
pub(crate) fn push_letter(text: &mut Text, leg: Leg) -> Result<(), NoMemory>
    ensures { OnOk result (text.new.list ≡ text.old.list ++ (codes " " ++ leg_letter leg)) }
{
    match leg {
        Leg::A => push_bytes(text, b" A"),
        Leg::B => push_bytes(text, b" B"),
        Leg::C => push_bytes(text, b" C"),
    }
}
