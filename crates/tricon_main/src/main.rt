//! `tricon`: reads a script on standard input and writes a report on standard output. The status
//! line goes to standard error, and the status number is what the program ends with.
#![tactic(auto)]

use std::env::Env;
use std::process::ExitCode;
use std::{env, io};
use tri_base::{Leg, NoMemory, Text, push_bytes};
use tri_io::{StdSink, StdSource};
use tricon::{Gate, Status, station, status_line};

// A gate through which each leg passes at once.
#[derive(Drop)]
struct OpenGate {}

impl Gate for OpenGate {
    fn pass(&self, _leg: Leg, _scan: u32) {}
}

fn main(rt: HostRuntime) -> ExitCode {
    let status = match read_words(&rt) {
        Ok(words) => {
            let mut source = StdSource::new(rt.stdin());
            let mut sink = StdSink::new(rt.stdout());
            let gate = OpenGate {};
            station(
                &rt,
                rt.alloc(),
                words.as_slice(),
                &mut source,
                &mut sink,
                &gate,
            )
        }
        Err(status) => status,
    };
    tell(&rt, &status);
    ExitCode::from(status.number())
}

// The words behind the program's name. Words that aren't text are no command.
fn read_words<R: AllocGlobal + Env>(rt: &R) -> Result<Vec<Text>, Status> {
    let mut words = Vec::new(rt.alloc());
    let args = env::args(rt).map_err(refused)?;
    for arg in args.skip(1) {
        let word = copy_word(rt, arg.as_bytes()).map_err(|_| Status::NoMemory)?;
        words.push(word).map_err(|_| Status::NoMemory)?;
    }
    Ok(words)
}

// Why there are no words.
fn refused(error: io::Error) -> Status {
    match error.kind() {
        io::ErrorKind::OutOfMemory => Status::NoMemory,
        _ => Status::Usage,
    }
}

// The bytes of a word.
fn copy_word<R: AllocGlobal>(rt: &R, bytes: &[u8]) -> Result<Text, NoMemory> {
    let mut word = Text::new(rt.alloc());
    push_bytes(&mut word, bytes)?;
    Ok(word)
}

// Writes the status line. There is nobody to be told where that fails.
fn tell<R: AllocGlobal + Eprint>(rt: &R, status: &Status) {
    let mut line = Text::new(rt.alloc());
    if status_line(rt.alloc(), status, &mut line).is_ok()
        && let Ok(text) = std::str::from_utf8(line.bytes())
    {
        let _ = eprint!(rt; "{text}");
    }
}
