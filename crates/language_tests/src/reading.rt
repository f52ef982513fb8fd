use st_reader::{ReadFault, lex, read_program};
use st_tree::TokenKind;
use std::alloc::Global;
use std::test::Fail;
use tri_base::{LexCause, Text, push_bytes};

/// What reading a text answers.
#[derive(Clone, Copy, Debug, PartialEq, Eq)]
enum Answer {
    Read,
    Lex(usize, LexCause),
    TooDeep(usize),
    Syntax(usize),
    NoMemory,
}

fn fault(fault: ReadFault) -> Answer {
    match fault {
        ReadFault::Lex { place, cause } => Answer::Lex(place, cause),
        ReadFault::TooDeep { token } => Answer::TooDeep(token),
        ReadFault::Syntax { token } => Answer::Syntax(token),
        ReadFault::NoMemory => Answer::NoMemory,
    }
}

fn read_text(alloc: Global, text: &Text) -> Answer {
    match lex(alloc, text) {
        Ok(tokens) => match read_program(alloc, &tokens) {
            Ok(_) => Answer::Read,
            Err(refused) => fault(refused),
        },
        Err(refused) => fault(refused),
    }
}

fn read(alloc: Global, bytes: &[u8]) -> Answer {
    let mut text = Text::new(alloc);
    match push_bytes(&mut text, bytes) {
        Ok(()) => read_text(alloc, &text),
        Err(_) => Answer::NoMemory,
    }
}

/// The number that is the first token of a text.
fn number(alloc: Global, bytes: &[u8]) -> Option<u32> {
    let mut text = Text::new(alloc);
    if push_bytes(&mut text, bytes).is_err() {
        return None;
    }
    match lex(alloc, &text) {
        Ok(tokens) => match tokens.items().first() {
            Some(token) => match token.kind {
                TokenKind::Number(number) => Some(number),
                _ => None,
            },
            None => None,
        },
        Err(_) => None,
    }
}

/// Whether a text's tokens are these: a name (n), a number (1) or a reserved word or symbol (w),
/// and its place.
fn has_tokens(alloc: Global, bytes: &[u8], wanted: &[(u8, usize)]) -> bool {
    let mut text = Text::new(alloc);
    if push_bytes(&mut text, bytes).is_err() {
        return false;
    }
    let Ok(tokens) = lex(alloc, &text) else {
        return false;
    };
    if tokens.items().len() != wanted.len() {
        return false;
    }
    for (token, wanted) in tokens.items().iter().zip(wanted) {
        let sort = match token.kind {
            TokenKind::Name(_) => b'n',
            TokenKind::Number(_) => b'1',
            TokenKind::Fixed(_) => b'w',
        };
        if sort != wanted.0 || token.place != wanted.1 {
            return false;
        }
    }
    true
}

#[test]
fn tokens_are_the_longest_there_are(rt: HostRuntime) -> Result<(), Fail> {
    let rows: [(&[u8], &[(u8, usize)]); 18] = [
        (b"", &[]),
        (b" \t\r\n", &[]),
        (b"A(*b*)C", &[(b'n', 0), (b'n', 6)]),
        (b"1(**)2", &[(b'1', 0), (b'1', 5)]),
        (b"(* \x00\xff $ *)A", &[(b'n', 10)]),
        (b"(* (* *) *)", &[(b'w', 9), (b'w', 10)]),
        (b"F(*x*)(A)", &[(b'n', 0), (b'w', 6), (b'n', 7), (b'w', 8)]),
        (b": =", &[(b'w', 0), (b'w', 2)]),
        (b":=:", &[(b'w', 0), (b'w', 2)]),
        (b"<>=", &[(b'w', 0), (b'w', 2)]),
        (b"...", &[(b'w', 0), (b'w', 2)]),
        (b"1..3", &[(b'1', 0), (b'w', 1), (b'1', 3)]),
        (b"1.5", &[(b'1', 0), (b'w', 1), (b'1', 2)]),
        (b"5..-1", &[(b'1', 0), (b'w', 1), (b'w', 3), (b'1', 4)]),
        (b"_ __A a1", &[(b'n', 0), (b'n', 2), (b'n', 6)]),
        (b"S R sr RS_", &[(b'n', 0), (b'n', 2), (b'w', 4), (b'n', 7)]),
        (b"00 007", &[(b'1', 0), (b'1', 3)]),
        (b"ABCDEFGHIJKLMNOPQRSTUVWXYZ_12345", &[(b'n', 0)]),
    ];
    for row in rows.iter() {
        assert!(rt; has_tokens(rt.alloc(), row.0, row.1), "{:?}", row.0);
    }
    Ok(())
}

#[test]
fn numbers_have_bases_and_underscores(rt: HostRuntime) -> Result<(), Fail> {
    let rows: [(&[u8], u32); 7] = [
        (b"16#fF", 255),
        (b"1_000", 1000),
        (b"2#101", 5),
        (b"8#17", 15),
        (b"007", 7),
        (b"16#FF_FF", 65535),
        (b"2147483648", 2147483648),
    ];
    for row in rows.iter() {
        assert_eq!(rt; number(rt.alloc(), row.0), Some(row.1));
    }
    Ok(())
}

#[test]
fn lexical_faults_are_at_their_first_byte(rt: HostRuntime) -> Result<(), Fail> {
    let rows: [(&[u8], Answer); 29] = [
        (b" 1__0", Answer::Lex(1, LexCause::BadNumber)),
        (b"5_", Answer::Lex(0, LexCause::BadNumber)),
        (b"2#12", Answer::Lex(0, LexCause::BadNumber)),
        (b"3#1", Answer::Lex(0, LexCause::BadNumber)),
        (b"16#", Answer::Lex(0, LexCause::BadNumber)),
        (b"16#_F", Answer::Lex(0, LexCause::BadNumber)),
        (b"9X", Answer::Lex(0, LexCause::BadNumber)),
        (b"99999999999X", Answer::Lex(0, LexCause::BadNumber)),
        (b"1OF", Answer::Lex(0, LexCause::BadNumber)),
        (b"1TO", Answer::Lex(0, LexCause::BadNumber)),
        (b"16#G", Answer::Lex(0, LexCause::BadNumber)),
        (b"1_6#F", Answer::Lex(0, LexCause::BadNumber)),
        (b"02#1", Answer::Lex(0, LexCause::BadNumber)),
        (b"16#F#", Answer::Lex(0, LexCause::BadNumber)),
        (
            b"1ABCDEFGHIJKLMNOPQRSTUVWXYZABCDEFGHIJKLMN",
            Answer::Lex(0, LexCause::BadNumber),
        ),
        (
            b"ABCDEFGHIJKLMNOPQRSTUVWXYZABCDEFG#",
            Answer::Lex(0, LexCause::NameTooLong),
        ),
        (b"X := (*Y)", Answer::Lex(5, LexCause::OpenComment)),
        (b"A\x00", Answer::Lex(1, LexCause::BadByte)),
        (b"A \xc3\xa4", Answer::Lex(2, LexCause::BadByte)),
        (b"A \"", Answer::Lex(2, LexCause::BadByte)),
        (b"2147483649", Answer::Lex(0, LexCause::NumberTooLarge)),
        (
            b"PROGRAM P X := 1 (* a",
            Answer::Lex(17, LexCause::OpenComment),
        ),
        (b"(*)", Answer::Lex(0, LexCause::OpenComment)),
        (b"PROGRAM P X := $;", Answer::Lex(15, LexCause::BadByte)),
        (b"\x0c", Answer::Lex(0, LexCause::BadByte)),
        (b"#", Answer::Lex(0, LexCause::BadByte)),
        (
            b"PROGRAM P ABCDEFGHIJKLMNOPQRSTUVWXYZ_ABCDEF := 1;",
            Answer::Lex(10, LexCause::NameTooLong),
        ),
        (b"(* (* *) *)", Answer::Syntax(0)),
        (b"(**)(***)", Answer::Syntax(0)),
    ];
    for row in rows.iter() {
        assert_eq!(rt; read(rt.alloc(), row.0), row.1);
    }
    Ok(())
}

#[test]
fn syntax_faults_are_at_the_first_impossible_token(rt: HostRuntime) -> Result<(), Fail> {
    let rows: [(&[u8], Answer); 24] = [
        (b"", Answer::Syntax(0)),
        (b"PROGRAM P X := ; END_PROGRAM", Answer::Syntax(4)),
        (b"PROGRAM P X := 1", Answer::Syntax(5)),
        (b"PROGRAM P X := - - 1; END_PROGRAM", Answer::Syntax(5)),
        (
            b"PROGRAM P FOR I := J TO 2 DO END_FOR; END_PROGRAM",
            Answer::Syntax(5),
        ),
        (b"PROGRAM P CASE X OF X", Answer::Syntax(5)),
        (b"PROGRAM P X(A := 1, ); END_PROGRAM", Answer::Syntax(8)),
        (b"PROGRAM P END_PROGRAM ;", Answer::Syntax(3)),
        (b"PROGRAM IF", Answer::Syntax(1)),
        (b"PROGRAM P T.Q := 1;", Answer::Syntax(3)),
        (b"PROGRAM P X := ABS();", Answer::Syntax(6)),
        (b"PROGRAM P X := NOT NOT B;", Answer::Syntax(5)),
        (b"PROGRAM P CASE X OF ELSE", Answer::Syntax(5)),
        (b"PROGRAM P CASE X OF END_CASE", Answer::Syntax(5)),
        (b"PROGRAM P X := - NOT X;", Answer::Syntax(5)),
        (b"PROGRAM P ABS(X);", Answer::Syntax(2)),
        (b"PROGRAM P VAR IF", Answer::Syntax(3)),
        (b"PROGRAM P X := +1;", Answer::Syntax(4)),
        (b"PROGRAM P ; VAR END_VAR", Answer::Syntax(3)),
        (b"PROGRAM P VAR_EXTERNAL X : INT := 1;", Answer::Syntax(6)),
        (b"PROGRAM P VAR A : ARRAY [1..3] INT;", Answer::Syntax(11)),
        (b"PROGRAM P VAR A : ARRAY (1", Answer::Syntax(6)),
        (b"PROGRAM P A[1, 2] := 3;", Answer::Syntax(5)),
        (b"PROGRAM P X := A[1].Q;", Answer::Syntax(8)),
    ];
    for row in rows.iter() {
        assert_eq!(rt; read(rt.alloc(), row.0), row.1);
    }
    Ok(())
}

#[test]
fn programs_of_every_production_are_read(rt: HostRuntime) -> Result<(), Fail> {
    let rows: [&[u8]; 11] = [
        b"PROGRAM P END_PROGRAM",
        b"program p var end_var var_external a, b : int; c : BOOL; end_var ; end_program",
        b"PROGRAM P VAR A : ARRAY [-1..+3] OF DINT := -2; B, C : BOOL := TRUE; T : TON; END_VAR
        A[4] := 9; X := A[0] + A[3]; END_PROGRAM",
        b"PROGRAM P T(); T(IN := B, PT := 5); IF A THEN ELSIF B & C THEN ; ELSE RETURN; END_IF;
        END_PROGRAM",
        b"PROGRAM P CASE X OF 1, 2..4, -5: Y := 1; +6: ELSE EXIT; END_CASE;
        FOR I := 1 TO -3 BY -1 DO ; END_FOR; END_PROGRAM",
        b"PROGRAM P X := -(-1) * 2 MOD T.Q - LIMIT(0, X, 9) / 3 <= 4 = NOT B XOR TRUE AND F
        OR 1 <> 2; END_PROGRAM",
        b"PROGRAM P VAR A : ARRAY [0..9] OF BOOL := FALSE; B : ARRAY [1..2] OF INT; END_VAR
        END_PROGRAM",
        b"PROGRAM P VAR A : R_TRIG; B : F_TRIG; C : SR; D : RS; E : CTU; F : CTD; G : TOF; H : TP;
        END_VAR END_PROGRAM",
        b"PROGRAM P X := ABS(MIN(A, MAX(B, C))) < SEL(FALSE, D, E) > F; END_PROGRAM",
        b"PROGRAM P X := INT_TO_DINT(A) >= DINT_TO_INT(B); END_PROGRAM",
        b"PROGRAM P FOR I := 1 TO 3 DO EXIT; END_FOR; END_PROGRAM",
    ];
    for row in rows.iter() {
        assert_eq!(rt; read(rt.alloc(), row), Answer::Read);
    }
    Ok(())
}

/// A program with so many brackets round a TRUE.
fn nested(alloc: Global, brackets: usize) -> Answer {
    let mut text = Text::new(alloc);
    let mut whole = push_bytes(&mut text, b"PROGRAM P VAR X : BOOL; END_VAR X := ").is_ok();
    for _ in 0..brackets {
        whole = push_bytes(&mut text, b"(").is_ok() && whole;
    }
    whole = push_bytes(&mut text, b"TRUE").is_ok() && whole;
    for _ in 0..brackets {
        whole = push_bytes(&mut text, b")").is_ok() && whole;
    }
    whole = push_bytes(&mut text, b"; END_PROGRAM").is_ok() && whole;
    if whole {
        read_text(alloc, &text)
    } else {
        Answer::NoMemory
    }
}

#[test]
fn nesting_goes_to_64(rt: HostRuntime) -> Result<(), Fail> {
    assert_eq!(rt; nested(rt.alloc(), 64), Answer::Read);
    assert_eq!(rt; nested(rt.alloc(), 65), Answer::TooDeep(74));
    let brackets = [b'('; 65];
    assert_eq!(rt; read(rt.alloc(), &brackets), Answer::TooDeep(64));
    assert_eq!(rt; read(rt.alloc(), &brackets[..64]), Answer::Syntax(0));
    Ok(())
}
