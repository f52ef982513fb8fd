//! Programs that are read, checked, laid out, compiled and run once.

ghost use Rattle.std.specs.Prelude.{◌≡◌, ◌<◌, ◌≤◌, IfSome};
ghost use Rattle.st_tree.specs.Nesting.{nesting_limit};
ghost use Rattle.st_tree.specs.TreeNesting.{body_nesting};

use chassis::Chassis;
use scan_code::{CodeFault, compile};
use scan_machine::{Code, Steps, run};
use st_reader::{lex, read_program};
use st_tree::Typed;
use st_types::check;
use std::alloc::Global;
use std::marker::Brand;
use std::sync::ledger::{Blank, Ledger};
use std::test::Fail;
use tag_layout::{Layout, lay};
use tri_base::{Text, Touched, push_bytes};

/// What a program leaves: whether a number was clamped, and the first six words.
type Left = (bool, [i64; 6]);

const TAGS: &[u8] = b"PROGRAM P VAR X : INT; Y : DINT; B : BOOL; A : ARRAY [1..3] OF INT; \
    T : TON; C : CTU; E : R_TRIG; END_VAR ";

/// The program with these statements.
fn typed(alloc: Global, statements: &[u8]) -> Option<Typed>
    ensures { IfSome result (λ t. body_nesting t.tree.statements ≤ nesting_limit) }
{
    let mut text = Text::new(alloc);
    push_bytes(&mut text, TAGS).ok()?;
    push_bytes(&mut text, statements).ok()?;
    push_bytes(&mut text, b" END_PROGRAM").ok()?;
    let Ok(tokens) = lex(alloc, &text) else {
        return None;
    };
    let Ok(tree) = read_program(alloc, &tokens) else {
        return None;
    };
    match check(alloc, tree, &Chassis::new(alloc)) {
        Ok(typed) => Some(typed),
        Err(_) => None,
    }
}

/// The code of a program with these statements, and its layout.
fn compiled(alloc: Global, statements: &[u8]) -> Option<(Result<Code, CodeFault>, Layout)> {
    let Some(typed) = typed(alloc, statements) else {
        return None;
    };
    match lay(alloc, &typed) {
        Ok(layout) => Some((compile(alloc, &typed, &layout), layout)),
        Err(_) => None,
    }
}

fn counted<L: Ledger>(blank: Blank, alloc: Global, code: &Code, layout: &Layout) -> Option<Left>
    requires name { blank.name ≡ L.name }
    requires parts { blank.parts ≡ L.parts }
    requires some { 0 < blank.parts }
{
    let mut steps = Steps::<L>::new(blank);
    let mut words = layout.first(alloc).ok()?;
    if words.items().len() != code.words() || words.items().len() < 6 {
        return None;
    }
    let mut touched = Touched::new(alloc, code.words()).ok()?;
    let flag = run(code, &mut words, 100, &mut touched, &mut steps);
    let w = words.items();
    Some((flag, [w[0], w[1], w[2], w[3], w[4], w[5]]))
}

fn left(alloc: Global, statements: &[u8]) -> Option<Left> {
    let (code, layout) = compiled(alloc, statements)?;
    counted::<Brand>(Blank::new(1), alloc, &code.ok()?, &layout)
}

fn fault(alloc: Global, statements: &[u8]) -> Option<CodeFault> {
    let (code, _) = compiled(alloc, statements)?;
    code.err()
}

#[test]
fn programs_do_what_they_say(rt: HostRuntime) -> Result<(), Fail> {
    let rows: [(&[u8], bool, [i64; 6]); 17] = [
        (
            b"X := 10 - 3 * 2; Y := -7 / 2; B := X = 4 AND NOT (Y > -3);",
            false,
            [4, -3, 1, 0, 0, 0],
        ),
        (
            b"FOR X := 1 TO 10 BY 4 DO Y := Y + 1; END_FOR; X := X + 32000 + 1000;",
            true,
            [32767, 3, 0, 0, 0, 0],
        ),
        (
            b"FOR X := 5 TO 1 BY -2 DO IF X = 3 THEN EXIT; \
              ELSIF X = 1 THEN RETURN; ELSE Y := Y + 10; \
              END_IF; END_FOR; A[X] := 7; A[9] := 5;",
            true,
            [3, 10, 0, 0, 0, 5],
        ),
        (
            b"FOR X := 0 TO 6 DO CASE X OF 1, 3..4: Y := Y + 1; 6: Y := Y + 100; RETURN; \
              ELSE Y := Y + 10; END_CASE; END_FOR; Y := 0;",
            false,
            [6, 133, 0, 0, 0, 0],
        ),
        (
            b"X := ABS(-7) + MIN(3, 5) + MAX(X, 2); Y := LIMIT(1, 9, 4); \
              B := SEL(FALSE, TRUE, FALSE);",
            false,
            [12, 4, 1, 0, 0, 0],
        ),
        (
            b"Y := INT_TO_DINT(32767) + 1; X := DINT_TO_INT(Y);",
            true,
            [32767, 32768, 0, 0, 0, 0],
        ),
        (
            b"C(CU := TRUE, PV := 2); C(CU := FALSE); C(CU := TRUE); X := C.CV; B := C.Q;",
            false,
            [2, 0, 1, 0, 0, 0],
        ),
        (
            b"T(IN := TRUE, PT := 150); Y := T.ET; T(); X := DINT_TO_INT(T.ET) + 1; B := T.Q;",
            false,
            [101, 0, 0, 0, 0, 0],
        ),
        (
            b"E(CLK := X = 0); B := E.Q; E(); IF E.Q THEN X := 1; ELSE X := 2; END_IF; \
              Y := MAX(SEL(E.Q, 9, 4), ABS(LIMIT(-3, Y - 9, 3)) * 2);",
            false,
            [2, 9, 1, 0, 0, 0],
        ),
        // no turn: the tag is left alone
        (
            b"X := 9; FOR X := 5 TO 1 DO Y := 1; END_FOR;",
            false,
            [9, 0, 0, 0, 0, 0],
        ),
        // up to the greatest INT, where the tag stays
        (
            b"FOR X := 32766 TO 32767 DO Y := Y + 1; END_FOR;",
            false,
            [32767, 2, 0, 0, 0, 0],
        ),
        // EXIT leaves the innermost loop alone
        (
            b"FOR Y := 1 TO 3 DO FOR X := 1 TO 9 DO A[2] := A[2] + 1; EXIT; END_FOR; END_FOR;",
            false,
            [1, 3, 0, 0, 3, 0],
        ),
        // RETURN leaves all of them
        (
            b"FOR Y := 1 TO 3 DO FOR X := 1 TO 9 DO RETURN; END_FOR; END_FOR; X := 5;",
            false,
            [1, 1, 0, 0, 0, 0],
        ),
        // a reversed range holds no number
        (
            b"CASE X OF 1..-1: Y := 1; ELSE Y := 2; END_CASE;",
            false,
            [0, 2, 0, 0, 0, 0],
        ),
        // the first branch that holds
        (
            b"IF X = 1 THEN Y := 1; ELSIF X = 0 THEN Y := 2; ELSIF TRUE THEN Y := 3; END_IF;",
            false,
            [0, 2, 0, 0, 0, 0],
        ),
        // from the left
        (
            b"X := 100 - 10 - 1; B := TRUE XOR TRUE XOR TRUE;",
            false,
            [89, 0, 1, 0, 0, 0],
        ),
        // an index below its bounds
        (
            b"A[1] := 4; X := A[0] + A[A[1] - 3];",
            true,
            [8, 0, 0, 4, 0, 0],
        ),
    ];
    for (statements, flag, words) in rows {
        assert_eq!(rt; left(rt.alloc(), statements), Some((flag, words)));
    }
    Ok(())
}

#[test]
fn the_limit_of_a_scan(rt: HostRuntime) -> Result<(), Fail> {
    // an assignment of a number costs 2, RETURN 1, a loop 2 and for each turn 1 more than its body
    let rows: [(&[u8], Option<CodeFault>); 4] = [
        (b"FOR Y := 1 TO 249999 DO X := 1; END_FOR;", None),
        // 2 + 333,332 * 3 + 2 = 1,000,000
        (b"FOR Y := 1 TO 333332 DO X := 1; END_FOR; X := 1;", None),
        (
            b"FOR Y := 1 TO 333332 DO X := 1; END_FOR; X := 1; RETURN;",
            Some(CodeFault::TooLong { cost: 1_000_001 }),
        ),
        (
            b"FOR X := 1 TO 30000 DO FOR Y := 1 TO 30000 DO A[1] := A[1] + 1; END_FOR; END_FOR;",
            Some(CodeFault::TooLong {
                cost: 6_300_090_002,
            }),
        ),
    ];
    for (statements, wanted) in rows {
        assert_eq!(rt; fault(rt.alloc(), statements), wanted);
    }
    Ok(())
}
