//! Reads the text of a program on standard input, and tells what the reader makes of it: how many
//! tokens a program has, or why there is none. With any word behind the program's name it also
//! checks the types, over a chassis without points.
#![tactic(auto)]

use chassis::Chassis;
use st_reader::{ReadFault, lex, read_program};
use st_tree::Tree;
use st_types::{CheckFault, check};
use std::{env, io};
use tri_base::Text;
use tri_io::{StdSource, read_all};

/// How many bytes a text may have.
const LIMIT: usize = 1_048_576;

fn main(rt: HostRuntime) -> io::Result<()> {
    let checks = env::args(&rt)?.nth(1).is_some();
    let mut source = StdSource::new(rt.stdin());
    let Ok(text) = read_all(rt.alloc(), &mut source, LIMIT) else {
        return println!(rt; "not read");
    };
    match read(&rt, &text) {
        Ok((tokens, tree)) => {
            println!(rt; "a program of {tokens} tokens")?;
            if checks {
                tell_types(&rt, tree)
            } else {
                Ok(())
            }
        }
        Err(ReadFault::Lex { place, cause }) => println!(rt; "{cause:?} at byte {place}"),
        Err(ReadFault::TooDeep { token }) => println!(rt; "too deep at token {token}"),
        Err(ReadFault::Syntax { token }) => println!(rt; "no program goes on with token {token}"),
        Err(ReadFault::NoMemory) => println!(rt; "no memory"),
    }
}

/// How many tokens the program has, and its tree.
fn read<R: AllocGlobal>(rt: &R, text: &Text) -> Result<(usize, Tree), ReadFault> {
    let tokens = lex(rt.alloc(), text)?;
    let tree = read_program(rt.alloc(), &tokens)?;
    Ok((tokens.items().len(), tree))
}

/// Tells whether a program is well typed.
fn tell_types<R: AllocGlobal + Print>(rt: &R, tree: Tree) -> io::Result<()> {
    match check(rt.alloc(), tree, &Chassis::new(rt.alloc())) {
        Ok(_) => println!(rt; "well typed"),
        Err(CheckFault::Fault(fault)) => {
            println!(rt; "{:?} at byte {}", fault.cause, fault.place)
        }
        Err(CheckFault::NoMemory) => println!(rt; "no memory"),
    }
}
