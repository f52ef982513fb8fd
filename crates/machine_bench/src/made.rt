// Made-up code, as a compiler would make it.

use scan_machine::{Instr, Kind};
use std::alloc::{AllocError, Global};

/// How many words the loops work on: the two counters, the sum, and a BOOL.
pub const LOOP_WORDS: usize = 4;

/// `FOR I := 1 TO turns DO FOR J := 1 TO 10000 DO S := S + J MOD 7; B := J > 5000;
/// IF B THEN S := 0; END_IF; END_FOR; END_FOR;`, which does 2 + 140,003 * turns instructions.
pub fn loops(alloc: Global, turns: u32) -> Result<Vec<Instr>, AllocError> {
    let next = |address: usize, last: i64, back: usize| Instr::Next {
        address,
        kind: Kind::Dint,
        step: 1,
        last,
        back,
    };
    let code = Vec::from_array(
        alloc,
        [
            Instr::Push(1),
            Instr::Store(0, Kind::Dint),
            Instr::Push(1),
            Instr::Store(1, Kind::Dint),
            Instr::Load(2, Kind::Dint),
            Instr::Load(1, Kind::Dint),
            Instr::Push(7),
            Instr::Mod(Kind::Dint),
            Instr::Add(Kind::Dint),
            Instr::Store(2, Kind::Dint),
            Instr::Load(1, Kind::Dint),
            Instr::Push(5000),
            Instr::Gt,
            Instr::Store(3, Kind::Bool),
            Instr::Load(3, Kind::Bool),
            Instr::JumpFalse(18),
            Instr::Push(0),
            Instr::Store(2, Kind::Dint),
            next(1, 10_000, 4),
            next(0, i64::from(turns), 2),
        ],
    )?;
    Ok(code)
}

/// A loop over about `count` instructions:
/// `FOR I := 1 TO 9 DO IF B THEN N := N + 1; END_IF; .. END_FOR;`
pub fn branches(alloc: Global, count: u32) -> Result<Vec<Instr>, AllocError> {
    let mut code = Vec::new(alloc);
    code.push(Instr::Push(1))?;
    code.push(Instr::Store(0, Kind::Int))?;
    for _ in 0..count / 6 {
        let end = code.len() + 6;
        code.push(Instr::Load(3, Kind::Bool))?;
        code.push(Instr::JumpFalse(end))?;
        code.push(Instr::Load(1, Kind::Int))?;
        code.push(Instr::Push(1))?;
        code.push(Instr::Add(Kind::Int))?;
        code.push(Instr::Store(1, Kind::Int))?;
    }
    code.push(Instr::Next {
        address: 0,
        kind: Kind::Int,
        step: 1,
        last: 9,
        back: 2,
    })?;
    Ok(code)
}
