ghost use Rattle.std.specs.Prelude.{◌≡◌, ◌≢◌, Some};
ghost use Rattle.script_commands.specs.declared.script_command.PlayCommand.{PlayCommand};
ghost use Rattle.script_commands.specs.declared.script_command.ScriptCommand.TheVariants.{Single, Play};
ghost use Rattle.tricon.specs.declared.command.Command.TheVariants.{Script};
ghost use Rattle.tricon.specs.Commands.{bytes_of, command_of, one_word, two_words, make_of, number_within, play_of, play_word};

use script_commands::{PlayCommand, ScriptCommand, SingleCommand};
use tri_base::{SCAN_LIMIT, Text, read_number};

/// What the program is asked to do.
#[derive(Clone, Copy, Debug, PartialEq, Eq)]
pub enum Command {
    /// To read a script, and to write what this command makes of it.
    Script(ScriptCommand),
    /// To read a cause and effect matrix, and to write its program.
    Matrix,
    /// To write a generated script.
    Make {
        /// The number that decides what the inputs read.
        number: u32,
        /// How many scans the script has, 1 to 2,000.
        scans: u32,
    },
}

/// The play that words ask for, or None.
pub(crate) fn read_play(words: &[Text]) -> Option<PlayCommand>
    ensures { result ≡ play_of (bytes_of words.now) }
{
    match words {
        [word] if word.bytes() == b"play".as_slice() => Some(PlayCommand::Report),
        [word, second] if word.bytes() == b"play".as_slice() => read_play_word(second.bytes()),
        _ => None,
    }
}

/// The play that the second word names.
fn read_play_word(word: &[u8]) -> Option<PlayCommand>
    ensures { result ≡ play_word word.now }
{
    if word == b"summary".as_slice() {
        Some(PlayCommand::Summary)
    } else if word == b"events".as_slice() {
        Some(PlayCommand::Events)
    } else if word == b"modbus".as_slice() {
        Some(PlayCommand::Modbus)
    } else {
        None
    }
}

/// The command that words are for the desk, or None.
pub(crate) fn read_command(words: &[Text]) -> Option<Command>
    ensures command { result ≡ command_of (bytes_of words.now) }
    ensures no_play { (play : PlayCommand) → result ≢ Some (Script (Play play)) }
{
    match words {
        [word] => read_one(word.bytes()),
        [word, second] => read_two(word.bytes(), second.bytes()),
        [word, number, scans] => read_make(word.bytes(), number.bytes(), scans.bytes()),
        _ => None,
    }
}

/// The command of one word.
fn read_one(word: &[u8]) -> Option<Command>
    ensures command { result ≡ one_word word.now }
    ensures no_play { (play : PlayCommand) → result ≢ Some (Script (Play play)) }
{
    if word == b"solo".as_slice() {
        Some(single(SingleCommand::Solo))
    } else if word == b"check".as_slice() {
        Some(single(SingleCommand::Check))
    } else if word == b"step".as_slice() {
        Some(Command::Script(ScriptCommand::Step))
    } else if word == b"matrix".as_slice() {
        Some(Command::Matrix)
    } else {
        None
    }
}

/// The command of two words.
fn read_two(word: &[u8], second: &[u8]) -> Option<Command>
    ensures command { result ≡ two_words word.now second.now }
    ensures no_play { (play : PlayCommand) → result ≢ Some (Script (Play play)) }
{
    if word == b"solo".as_slice() && second == b"summary".as_slice() {
        Some(single(SingleCommand::SoloSummary))
    } else {
        None
    }
}

/// A command of the one controller.
fn single(command: SingleCommand) -> Command
    ensures { result ≡ Script (Single command) }
{
    Command::Script(ScriptCommand::Single(command))
}

/// The command `make`, with its two numbers.
fn read_make(word: &[u8], number: &[u8], scans: &[u8]) -> Option<Command>
    ensures command { result ≡ make_of word.now number.now scans.now }
    ensures no_play { (play : PlayCommand) → result ≢ Some (Script (Play play)) }
{
    if word != b"make".as_slice() {
        return None;
    }
    let number = read_within(0, u32::MAX, number)?;
    let scans = read_within(1, SCAN_LIMIT, scans)?;
    Some(Command::Make { number, scans })
}

/// The number from `least` to `most` that a word of 1 to 18 digits spells, or None.
fn read_within(least: u32, most: u32, word: &[u8]) -> Option<u32>
    ensures { result ≡ number_within least most word.now }
{
    if let [b'-', ..] = word {
        return None;
    }
    let number = read_number(word)?;
    if i64::from(least) <= number && number <= i64::from(most) {
        Some(number as u32)
    } else {
        None
    }
}
