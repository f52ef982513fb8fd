ghost use Rattle.std.specs.Prelude.{◌≡◌};
ghost use Rattle.script_lines.specs.Order.{keyword_of, part_of, may_follow};

/// The keyword that begins a line.
#[derive(Clone, Copy, Debug, PartialEq, Eq)]
pub enum Keyword {
    /// `TRICON`
    Tricon,
    /// `POINT`
    Point,
    /// `TEXT`
    Text,
    /// `SCHEDULE`
    Schedule,
    /// `SCANS`
    Scans,
    /// `AT`
    At,
    /// `SET`
    Set,
    /// `TIME`
    Time,
    /// `DOWNLOAD`
    Download,
    /// `MUTE`
    Mute,
    /// `POKE`
    Poke,
    /// `REPLACE`
    Replace,
    /// `SWAP`
    Swap,
    /// `READ`
    Read,
    /// `RESULT`
    Result,
    /// `DRIVE`
    Drive,
    /// `RENAME`
    Rename,
    /// `ASK`
    Ask,
    /// `END`
    End,
}

/// A part of a script that a line stands in.
#[derive(Clone, Copy, Debug, PartialEq, Eq)]
pub enum Part {
    /// Nothing stands before.
    Nothing,
    /// `TRICON 1`
    Heading,
    /// `POINT`
    Plant,
    /// `TEXT` and its block
    Program,
    /// `SCHEDULE`
    Order,
    /// `SCANS`
    Count,
    /// `AT`
    Moment,
    /// A line of a scan
    Inside,
    /// `END`
    Ended,
}

/// The keyword that a word is.
pub fn read_keyword(word: &[u8]) -> Option<Keyword>
    ensures { result ≡ keyword_of word.now }
{
    if word == b"SET".as_slice() {
        Some(Keyword::Set)
    } else if word == b"AT".as_slice() {
        Some(Keyword::At)
    } else if word == b"TRICON".as_slice() {
        Some(Keyword::Tricon)
    } else if word == b"POINT".as_slice() {
        Some(Keyword::Point)
    } else if word == b"TEXT".as_slice() {
        Some(Keyword::Text)
    } else if word == b"SCANS".as_slice() {
        Some(Keyword::Scans)
    } else if word == b"DOWNLOAD".as_slice() {
        Some(Keyword::Download)
    } else if word == b"READ".as_slice() {
        Some(Keyword::Read)
    } else if word == b"TIME".as_slice() {
        Some(Keyword::Time)
    } else if word == b"SCHEDULE".as_slice() {
        Some(Keyword::Schedule)
    } else if word == b"MUTE".as_slice() {
        Some(Keyword::Mute)
    } else if word == b"POKE".as_slice() {
        Some(Keyword::Poke)
    } else if word == b"REPLACE".as_slice() {
        Some(Keyword::Replace)
    } else if word == b"SWAP".as_slice() {
        Some(Keyword::Swap)
    } else if word == b"RESULT".as_slice() {
        Some(Keyword::Result)
    } else if word == b"DRIVE".as_slice() {
        Some(Keyword::Drive)
    } else if word == b"RENAME".as_slice() {
        Some(Keyword::Rename)
    } else if word == b"ASK".as_slice() {
        Some(Keyword::Ask)
    } else {
        (word == b"END".as_slice()).then_some(Keyword::End)
    }
}

/// The part that a line stands in, by its first word.
pub fn keyword_part(keyword: Keyword) -> Part
    ensures { result ≡ part_of keyword }
{
    match keyword {
        Keyword::Tricon => Part::Heading,
        Keyword::Point => Part::Plant,
        Keyword::Text => Part::Program,
        Keyword::Schedule => Part::Order,
        Keyword::Scans => Part::Count,
        Keyword::At => Part::Moment,
        Keyword::Set
        | Keyword::Time
        | Keyword::Download
        | Keyword::Mute
        | Keyword::Poke
        | Keyword::Replace
        | Keyword::Swap
        | Keyword::Read
        | Keyword::Result
        | Keyword::Drive
        | Keyword::Rename
        | Keyword::Ask => Part::Inside,
        Keyword::End => Part::Ended,
    }
}

/// Whether a line of one part may stand directly behind a line of another.
pub fn follows(last: Part, next: Part) -> bool
    ensures { result ≡ may_follow last next }
{
    match next {
        Part::Nothing => false,
        Part::Heading => matches!(last, Part::Nothing),
        Part::Plant | Part::Program => matches!(last, Part::Heading | Part::Plant),
        Part::Order | Part::Count => matches!(last, Part::Program | Part::Order),
        Part::Moment | Part::Ended => matches!(last, Part::Count | Part::Moment | Part::Inside),
        Part::Inside => matches!(last, Part::Moment | Part::Inside),
    }
}
