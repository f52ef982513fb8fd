ghost use Rattle.std.specs.Prelude.{◌≡◌, ◌≤◌, ◌<◌, length};

use crate::{BadCode, BlockKind, Code, CodeRule, Instr, Kind, Steps, run};
use std::alloc::Global;
use std::marker::Brand;
use std::sync::ledger::{Blank, Ledger};
use std::test::Fail;
use tri_base::{Touched, Words, push_word};

fn next(address: usize, step: i64, last: i64, back: usize) -> Instr {
    Instr::Next {
        address,
        kind: Kind::Int,
        step,
        last,
        back,
    }
}

fn fault(alloc: Global, code: &[Instr], words: usize) -> Result<Option<BadCode>, Fail> {
    Ok(Code::verify(Vec::from_slice(alloc, code)?, words).err())
}

#[test]
fn the_first_broken_rule_at_the_first_place(rt: HostRuntime) -> Result<(), Fail> {
    let push = Instr::Push(1);
    let store = Instr::Store(0, Kind::Int);
    let add = Instr::Add(Kind::Int);
    let far = Instr::Push(3_000_000_000);
    let cases: [(&[Instr], usize, CodeRule); 13] = [
        (&[Instr::Load(5, Kind::Int)], 0, CodeRule::Address),
        (&[Instr::Jump(0)], 0, CodeRule::Target),
        (&[push, Instr::Store(4, Kind::Int)], 1, CodeRule::Address),
        (&[push, store, far], 2, CodeRule::Constant),
        (&[push, store, Instr::Jump(2)], 2, CodeRule::Target),
        (&[push, add], 1, CodeRule::Depth),
        (&[push], 1, CodeRule::Depth),
        (
            &[Instr::Jump(1), next(0, 1, 9, 1), next(0, 1, 9, 1)],
            2,
            CodeRule::Loop,
        ),
        // crossing loops: 0 to 2 and 1 to 3
        (
            &[
                Instr::Jump(1),
                Instr::Jump(2),
                next(0, 1, 9, 0),
                next(1, 1, 9, 1),
            ],
            3,
            CodeRule::Loop,
        ),
        // an operand waits where a later Next leads
        (
            &[push, push, store, store, next(1, 1, 9, 1)],
            1,
            CodeRule::Depth,
        ),
        // two rules at one place
        (&[push, store, next(7, 0, 9, 2)], 2, CodeRule::Address),
        (&[push, store, next(1, 0, 9, 3)], 2, CodeRule::Constant),
        // a target in the middle of an assignment, and a later fault
        (
            &[push, Instr::JumpFalse(3), push, store, store],
            3,
            CodeRule::Depth,
        ),
    ];
    for (code, index, cause) in cases {
        assert_eq!(rt; fault(rt.alloc(), code, 4)?, Some(BadCode { index, cause }));
    }
    assert_eq!(rt; fault(rt.alloc(), &[push, store], 1)?, None);
    assert_eq!(rt; fault(rt.alloc(), &[], 0)?, None);
    assert_eq!(rt;
        fault(rt.alloc(), &[push, store, store], 1)?,
        Some(BadCode {
            index: 2,
            cause: CodeRule::Depth
        })
    );
    Ok(())
}

// What a run leaves: the words, the flag and the pairs that were noted.
fn play<L: Ledger>(blank: Blank, code: &Code, words: &mut Words, touched: &mut Touched) -> bool
    requires name { blank.name ≡ L.name }
    requires parts { blank.parts ≡ L.parts }
    requires some { 0 < blank.parts }
    requires words { length words.old.list ≡ code.now.words }
    requires touched { code.now.words ≤ touched.old.size }
{
    let mut steps: Steps<L> = Steps::new(blank);
    run(code, words, 100, touched, &mut steps)
}

fn played(code: &Code, words: &mut Words, touched: &mut Touched) -> bool
    requires words { length words.old.list ≡ code.now.words }
    requires touched { code.now.words ≤ touched.old.size }
{
    play::<Brand>(Blank::new(1), code, words, touched)
}

#[test]
fn runs_leave_words_flag_and_stores(rt: HostRuntime) -> Result<(), Fail> {
    let int = Kind::Int;
    let load_at = Instr::LoadAt {
        address: 0,
        kind: int,
        low: 1,
        high: 3,
    };
    let store_at = Instr::StoreAt {
        address: 0,
        kind: int,
        low: 1,
        high: 3,
    };
    let push = Instr::Push;
    let store = |address: usize| Instr::Store(address, int);
    let cases: [(&[Instr], [i64; 4], [i64; 4], bool, &[(usize, i64)]); 10] = [
        // each address once, with the number before
        (
            &[push(1), store(0), push(1), store(0), push(0), store(1)],
            [5, 0, 0, 0],
            [1, 0, 0, 0],
            false,
            &[(0, 5), (1, 0)],
        ),
        // A[4] := 9; X := A[0] + A[3], A being ARRAY [1..3]
        (
            &[
                push(4),
                push(9),
                store_at,
                push(0),
                load_at,
                push(3),
                load_at,
                Instr::Add(int),
                store(3),
            ],
            [2, 2, 2, 0],
            [2, 2, 9, 11],
            true,
            &[(2, 2), (3, 0)],
        ),
        (
            &[push(32767), push(1), Instr::Add(int), store(0)],
            [0; 4],
            [32767, 0, 0, 0],
            true,
            &[(0, 0)],
        ),
        (
            &[push(-32768), push(-1), Instr::Div(int), store(0)],
            [0; 4],
            [32767, 0, 0, 0],
            true,
            &[(0, 0)],
        ),
        (
            &[push(7), push(0), Instr::Div(int), store(0)],
            [1; 4],
            [0, 1, 1, 1],
            true,
            &[(0, 1)],
        ),
        (
            &[
                push(-7),
                push(3),
                Instr::Div(int),
                store(0),
                push(-7),
                push(3),
                Instr::Mod(int),
                store(1),
            ],
            [0; 4],
            [-2, -1, 0, 0],
            false,
            &[(0, 0), (1, 0)],
        ),
        (
            &[push(10), push(5), push(3), Instr::Limit, store(0)],
            [0; 4],
            [3, 0, 0, 0],
            false,
            &[(0, 0)],
        ),
        // FOR I := 3 TO 1 BY -2 DO N := N + I; END_FOR;
        (
            &[
                push(3),
                store(0),
                Instr::Load(1, int),
                Instr::Load(0, int),
                Instr::Add(int),
                store(1),
                next(0, -2, 1, 2),
            ],
            [0; 4],
            [1, 4, 0, 0],
            false,
            &[(0, 0), (1, 0)],
        ),
        // FOR I := 32766 TO 32767
        (
            &[
                push(32766),
                store(0),
                Instr::Load(1, int),
                push(1),
                Instr::Add(int),
                store(1),
                next(0, 1, 32767, 2),
            ],
            [0; 4],
            [32767, 2, 0, 0],
            false,
            &[(0, 0), (1, 0)],
        ),
        // a call notes each of its words, the one that stays as well
        (
            &[push(1), store(1), Instr::Call(BlockKind::RTrig, 1)],
            [4, 7, 0, 0],
            [4, 1, 1, 1],
            false,
            &[(1, 7), (2, 0), (3, 0)],
        ),
    ];
    for (code, before, after, flag, stores) in cases {
        let code = Code::verify(Vec::from_slice(rt.alloc(), code)?, 4)?;
        let mut words = Words::new(rt.alloc());
        for word in before {
            push_word(&mut words, word).map_err(|_| "no memory")?;
        }
        let mut touched = Touched::new(rt.alloc(), 4).map_err(|_| "no memory")?;
        assert_eq!(rt; words.len(), code.words());
        assert_eq!(rt; code.words(), 4);
        assert_eq!(rt; played(&code, &mut words, &mut touched), flag);
        assert_eq!(rt; words.items(), after.as_slice());
        assert_eq!(rt; touched.pairs(), stores);
    }
    Ok(())
}
