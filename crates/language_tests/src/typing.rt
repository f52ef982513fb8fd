//! Programs by tables. In each row a text has the mark ^ before the byte at which its first typing
//! fault is told, and the cause stands beside it; a text without a mark is well typed.

use chassis::Chassis;
use st_reader::{lex, read_program};
use st_types::{CheckFault, check};
use std::alloc::Global;
use std::slice;
use tri_base::TypeCause::{
    ArgumentCount, BadField, ExitOutside, LiteralRange, LoopTag, NoSuchPoint, NotAssignable,
    PointKind, Twice, UnknownName, WrongType, ZeroStep,
};
use tri_base::{Name, Point, Text, TypeCause, TypeFault, push_bytes};

/// A text, and the cause of its first fault.
type Row = (&'static [u8], Option<TypeCause>);

/// What is found of a text; None where it isn't read, or memory lacks.
type Found = Option<Option<TypeFault>>;

/// A chassis with a discrete input I and output O, and an analogue input L and output V.
fn chassis(alloc: Global) -> Option<Chassis> {
    let mut chassis = Chassis::new(alloc);
    for (name, kind, high, tolerance) in [
        (b"I".as_slice(), tri_base::PointKind::Di, 1, 0),
        (b"O".as_slice(), tri_base::PointKind::Do, 1, 0),
        (b"L", tri_base::PointKind::Ai, 100, 1),
        (b"V", tri_base::PointKind::Ao, 100, 0),
    ] {
        let name = Name::read(name)?;
        let point = Point {
            name,
            kind,
            low: 0,
            high,
            tolerance,
        };
        chassis.add(point).ok()?;
    }
    Some(chassis)
}

/// What the checker finds of a text.
fn found(alloc: Global, chassis: &Chassis, text: &Text) -> Found {
    let tokens = lex(alloc, text).ok()?;
    let tree = read_program(alloc, &tokens).ok()?;
    match check(alloc, tree, chassis) {
        Ok(_) => Some(None),
        Err(CheckFault::Fault(fault)) => Some(Some(fault)),
        Err(CheckFault::NoMemory) => None,
    }
}

/// Whether a program that begins so and goes on with a row's text has the row's fault.
fn holds(alloc: Global, chassis: &Chassis, begin: &[u8], row: &Row) -> bool {
    let mut text = Text::new(alloc);
    let mut place = 0;
    if push_bytes(&mut text, begin).is_err() {
        return false;
    }
    for byte in row.0 {
        if *byte == b'^' {
            place = text.len();
        } else if push_bytes(&mut text, slice::from_ref(byte)).is_err() {
            return false;
        }
    }
    if push_bytes(&mut text, b" END_PROGRAM").is_err() {
        return false;
    }
    let wanted = row.1.map(|cause| TypeFault { place, cause });
    found(alloc, chassis, &text) == Some(wanted)
}

/// The number of the first row that doesn't hold, counted from 0.
fn first_wrong(alloc: Global, begin: &[u8], rows: &[Row]) -> Option<usize> {
    let Some(chassis) = chassis(alloc) else {
        return Some(0);
    };
    rows.iter()
        .position(|row| !holds(alloc, &chassis, begin, row))
}

/// The declarations that statements are checked behind.
const TAGS: &[u8] = b"PROGRAM P VAR X, Y : INT; B : BOOL; D, E : DINT; T : TON; C : CTU; \
A : ARRAY [1..3] OF INT; F : ARRAY [-1..1] OF BOOL; END_VAR \
VAR_EXTERNAL I : BOOL; O : BOOL; END_VAR ";

/// What stands before declarations.
const NO_TAGS: &[u8] = b"PROGRAM P ";

const EXPRESSIONS: [Row; 57] = [
    (b"X := 40000 + ^B;", Some(WrongType)),
    (b"X := 40000 + ^Z;", Some(UnknownName)),
    (b"X := LIMIT(40000, X, ^D);", Some(WrongType)),
    (b"X := (^40000 + X) + Z;", Some(LiteralRange)),
    (b"D := ^40000 + X;", Some(LiteralRange)),
    (b"D := ^1 + X;", Some(WrongType)),
    (b"X := -32768;", None),
    (b"X := -(^32768);", Some(LiteralRange)),
    (b"X := 5 - ^32768;", Some(LiteralRange)),
    (b"X := -(-32768);", None),
    (b"X := ABS(-32768);", None),
    (b"X := X + ^D;", Some(WrongType)),
    (b"O := B = ^X;", Some(WrongType)),
    (b"O := X = ^B;", Some(WrongType)),
    (b"O := 1 = ^TRUE;", Some(WrongType)),
    (b"O := ^B < TRUE;", Some(WrongType)),
    (b"X := ^B + 1;", Some(WrongType)),
    (b"O := ^X AND B;", Some(WrongType)),
    (b"X := -^B;", Some(WrongType)),
    (b"O := NOT ^X;", Some(WrongType)),
    (b"X := ^(B);", Some(WrongType)),
    (b"X := ^-D;", Some(WrongType)),
    (b"X := ^MAX(D, D);", Some(WrongType)),
    (b"X := MAX(^Z);", Some(UnknownName)),
    (b"X := ^MAX(B);", Some(ArgumentCount)),
    (b"B := X + ^Z;", Some(UnknownName)),
    (b"X := B + ^Z;", Some(UnknownName)),
    (b"O := 1 < 2 = TRUE;", None),
    (b"O := 1 = 1 = ^1;", Some(WrongType)),
    (b"O := 40000 < 50000;", None),
    (b"O := ^2147483648 = 1;", Some(LiteralRange)),
    (b"O := -2147483648 = 1;", None),
    (b"X := SEL(B, 1, 2);", None),
    (b"X := SEL(B, 1, ^40000);", Some(LiteralRange)),
    (b"X := SEL(^1, B, X);", Some(WrongType)),
    (b"X := SEL(B, X, ^B);", Some(WrongType)),
    (b"O := SEL(B, B, I);", None),
    (b"D := SEL(B, X, ^D);", Some(WrongType)),
    (b"D := INT_TO_DINT(^40000);", Some(LiteralRange)),
    (b"D := INT_TO_DINT(^D);", Some(WrongType)),
    (b"X := ^INT_TO_DINT(X);", Some(WrongType)),
    (b"D := ^INT_TO_DINT(X, X);", Some(ArgumentCount)),
    (b"X := DINT_TO_INT(D);", None),
    (b"X := DINT_TO_INT(40000);", None),
    (b"X := DINT_TO_INT(^X);", Some(WrongType)),
    (b"X := DINT_TO_INT(^B);", Some(WrongType)),
    (b"D := ^DINT_TO_INT(D);", Some(WrongType)),
    (b"X := DINT_TO_INT(^2147483648);", Some(LiteralRange)),
    (b"X := ^DINT_TO_INT(D, D);", Some(ArgumentCount)),
    (b"O := O;", None),
    (b"D := T.^PT;", Some(BadField)),
    (b"O := T.^M;", Some(BadField)),
    (b"D := T.ET;", None),
    (b"O := ^X.Q;", Some(WrongType)),
    (b"O := ^Z.Q;", Some(UnknownName)),
    (b"O := ^T;", Some(WrongType)),
    (b"X := ^P;", Some(UnknownName)),
];

const STATEMENTS: [Row; 31] = [
    (b"^Y(IN := Z);", Some(WrongType)),
    (b"^T := 1;", Some(WrongType)),
    (b"^I := B;", Some(NotAssignable)),
    (b"^Z := Z;", Some(UnknownName)),
    (b"^Z();", Some(UnknownName)),
    (b"T(^Q := B);", Some(BadField)),
    (b"T(^M := B);", Some(BadField)),
    (b"T(IN := B, ^IN := B);", Some(Twice)),
    (b"T();", None),
    (b"T(PT := 250);", None),
    (b"C(PV := ^40000);", Some(LiteralRange)),
    (b"T(PT := ^X);", Some(WrongType)),
    (b"CASE ^B OF 99999: X := 1; END_CASE;", Some(WrongType)),
    (
        b"CASE X OF 1, -32768, ^32768: X := 1; END_CASE;",
        Some(LiteralRange),
    ),
    (b"CASE 1 OF 40000..-40000, 1: X := 1; END_CASE;", None),
    (b"CASE X OF 5..1, 5: X := 1; 5: X := 2; END_CASE;", None),
    (
        b"CASE X OF 1..+^40000: X := 1; END_CASE;",
        Some(LiteralRange),
    ),
    (b"FOR ^B := 99999 TO 1 DO END_FOR;", Some(WrongType)),
    (b"FOR ^I := 1 TO 2 DO END_FOR;", Some(WrongType)),
    (b"FOR ^Z := 1 TO 40000 DO END_FOR;", Some(UnknownName)),
    (b"FOR X := 1 TO ^40000 DO END_FOR;", Some(LiteralRange)),
    (b"FOR D := 1 TO 40000 DO END_FOR;", None),
    (
        b"FOR X := -^40000 TO 1 BY 0 DO END_FOR;",
        Some(LiteralRange),
    ),
    (b"FOR X := 1 TO 2 BY ^-0 DO END_FOR;", Some(ZeroStep)),
    (b"FOR X := 1 TO 2 BY ^+0 DO END_FOR;", Some(ZeroStep)),
    (
        b"FOR X := 1 TO 2 BY -^40000 DO END_FOR;",
        Some(LiteralRange),
    ),
    (
        b"FOR X := 1 TO 2 DO IF B THEN ^X := 1; END_IF; END_FOR;",
        Some(LoopTag),
    ),
    (
        b"FOR X := 1 TO 2 DO FOR ^X := 1 TO 2 DO END_FOR; END_FOR;",
        Some(LoopTag),
    ),
    (
        b"FOR X := 1 TO 2 DO END_FOR; FOR X := 1 TO 2 DO END_FOR; X := 1;",
        None,
    ),
    (b"IF B THEN ^EXIT; END_IF;", Some(ExitOutside)),
    (
        b"FOR X := 1 TO 2 DO CASE Y OF 1: EXIT; END_CASE; END_FOR; RETURN;",
        None,
    ),
];

const ARRAYS: [Row; 17] = [
    (b"O := ^Y[Z];", Some(WrongType)),
    (b"X := A[40000];", None),
    (b"X := A[^2147483648];", Some(LiteralRange)),
    (b"X := A[^B];", Some(WrongType)),
    (b"X := ^A;", Some(WrongType)),
    (b"X := ^A.Q;", Some(WrongType)),
    (b"^A();", Some(WrongType)),
    (b"FOR ^A := 1 TO 2 DO END_FOR;", Some(WrongType)),
    (b"^A := 1;", Some(WrongType)),
    (b"A[X] := ^B;", Some(WrongType)),
    (b"A[D] := 1;", None),
    (b"^Y[1] := 1;", Some(WrongType)),
    (b"^T[1] := 1;", Some(WrongType)),
    (b"^Z[1] := 1;", Some(UnknownName)),
    (b"F[-1] := TRUE;", None),
    (b"A[^B] := B;", Some(WrongType)),
    (b"X := A[1] + ^D;", Some(WrongType)),
];

const DECLARATIONS: [Row; 27] = [
    (b"VAR X, ^X : INT; END_VAR", Some(Twice)),
    (
        b"VAR I : INT; END_VAR VAR_EXTERNAL ^I : INT; END_VAR",
        Some(Twice),
    ),
    (b"VAR_EXTERNAL ^K : BOOL; END_VAR", Some(NoSuchPoint)),
    (b"VAR_EXTERNAL ^I : INT; END_VAR", Some(PointKind)),
    (b"VAR_EXTERNAL ^L : DINT; END_VAR", Some(PointKind)),
    (b"VAR_EXTERNAL L : INT; END_VAR", None),
    (b"VAR_EXTERNAL ^V : BOOL; END_VAR", Some(PointKind)),
    (b"VAR_EXTERNAL V : INT; END_VAR V := 1;", None),
    (
        b"VAR_EXTERNAL V : INT; END_VAR FOR V := 1 TO 2 DO END_FOR;",
        None,
    ),
    (
        b"VAR_EXTERNAL L : INT; END_VAR ^L := 1;",
        Some(NotAssignable),
    ),
    (
        b"VAR_EXTERNAL L : INT; END_VAR FOR ^L := 1 TO 2 DO END_FOR;",
        Some(NotAssignable),
    ),
    (b"VAR X : INT := -32768; END_VAR", None),
    (b"VAR X : INT := -^32769; END_VAR", Some(LiteralRange)),
    (b"VAR X : INT := +^32768; END_VAR", Some(LiteralRange)),
    (b"VAR X : BOOL := ^-1; END_VAR", Some(WrongType)),
    (b"VAR X : INT := ^TRUE; END_VAR", Some(WrongType)),
    (b"VAR X : TON := ^1; END_VAR", Some(WrongType)),
    (b"VAR X : TON := ^TRUE; END_VAR", Some(WrongType)),
    (b"VAR I : INT; P : BOOL; END_VAR I := 1;", None),
    (b"VAR A : ARRAY [5..5] OF INT; END_VAR", None),
    (b"VAR A : ARRAY [5..^4] OF INT; END_VAR", Some(LiteralRange)),
    (
        b"VAR A : ARRAY [^2147483648..4] OF INT; END_VAR",
        Some(LiteralRange),
    ),
    (
        b"VAR A : ARRAY [-2147483648..2147483647] OF INT; END_VAR",
        None,
    ),
    (
        b"VAR A : ARRAY [1..^2147483648] OF INT; END_VAR",
        Some(LiteralRange),
    ),
    (
        b"VAR A : ARRAY [1..2] OF INT := ^TRUE; END_VAR",
        Some(WrongType),
    ),
    (
        b"VAR A : ARRAY [1..2] OF INT := ^40000; END_VAR",
        Some(LiteralRange),
    ),
    (b"VAR A : ARRAY [1..2] OF BOOL := TRUE; END_VAR", None),
];

#[test]
fn expressions_have_one_type(rt: HostRuntime) {
    assert_eq!(rt; first_wrong(rt.alloc(), TAGS, &EXPRESSIONS), None);
}

#[test]
fn statements_ask_for_types(rt: HostRuntime) {
    assert_eq!(rt; first_wrong(rt.alloc(), TAGS, &STATEMENTS), None);
}

#[test]
fn arrays_have_an_index_and_elements(rt: HostRuntime) {
    assert_eq!(rt; first_wrong(rt.alloc(), TAGS, &ARRAYS), None);
}

#[test]
fn declarations_fit_the_chassis_and_their_types(rt: HostRuntime) {
    assert_eq!(rt; first_wrong(rt.alloc(), NO_TAGS, &DECLARATIONS), None);
}
