//! Runs and verifies made-up code of any size, so that a script can take the time. A line
//! `run TURNS` runs two nested loops with so many outer turns; a line `verify COUNT TIMES` verifies
//! code of about so many instructions so often.
#![tactic(auto)]

mod made;
mod play;

use std::io;

fn main(rt: HostRuntime) -> anyhow::Result<()> {
    for line in rt.lines(rt.alloc()) {
        let line = line?;
        let mut words = line.as_str().split_whitespace();
        let command = words.next().unwrap_or("");
        let first = number_of(words.next());
        let second = number_of(words.next());
        match command {
            "run" => {
                match play::run_loops(rt.alloc(), first) {
                    Ok(sum) => println!(rt; "run {first}: {sum}")?,
                    Err(_) => println!(rt; "no memory")?,
                }
            }
            "verify" => {
                let good = play::verify_often(rt.alloc(), first, second)?;
                println!(rt; "verify {first}: {good} of {second}")?;
            }
            _ => println!(rt; "run TURNS or verify COUNT TIMES")?,
        }
    }
    Ok(())
}

fn number_of(word: Option<&str>) -> u32 {
    match word {
        Some(word) => word.parse::<u32>().unwrap_or(0),
        None => 0,
    }
}
