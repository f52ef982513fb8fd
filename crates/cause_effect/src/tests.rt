use crate::{Matrix, MatrixCause, MatrixFault, ProgramFault, read_matrix, write_program};
use std::alloc::Global;
use std::test::Fail;
use tri_base::{Text, push_bytes};

/// Reads bytes as a matrix; a test's are never too many.
fn read(alloc: Global, bytes: &[u8]) -> Result<Matrix, MatrixFault> {
    let mut text = Text::new(alloc);
    push_bytes(&mut text, bytes).map_err(|_| MatrixFault::NoMemory)?;
    read_short(alloc, &text)
}

fn read_short(alloc: Global, text: &Text) -> Result<Matrix, MatrixFault> {
    if text.len() > 100_000 {
        return Err(MatrixFault::NoMemory);
    }
    read_matrix(alloc, text)
}

/// The program of a matrix.
fn written(alloc: Global, matrix: &Matrix) -> Result<Text, ProgramFault> {
    let mut text = Text::new(alloc);
    write_program(alloc, matrix, &mut text)?;
    Ok(text)
}

/// Whether bytes are no matrix, for this cause at this line.
fn refuses(alloc: Global, bytes: &[u8], line: u32, cause: MatrixCause) -> bool {
    match read(alloc, bytes) {
        Ok(_) => false,
        Err(fault) => fault == MatrixFault::At { line, cause },
    }
}

#[test]
fn a_matrix_becomes_its_program(rt: HostRuntime) -> Result<(), Fail> {
    let bytes = b"MATRIX 1\n\
        CAUSE LOWP LOW\n\
        CAUSE STOP HIGH\n\
        EFFECT VALVE LATCH\n\
        EFFECT HORN FOLLOW\n\
        RESET ACK\n\
        LINK LOWP VALVE\n\
        LINK STOP VALVE\n\
        LINK LOWP HORN\n\
        END\n"
        .as_slice();
    let program = b"PROGRAM MATRIX\n\
        VAR_EXTERNAL\n\
        LOWP : BOOL;\n\
        STOP : BOOL;\n\
        VALVE : BOOL;\n\
        HORN : BOOL;\n\
        ACK : BOOL;\n\
        END_VAR\n\
        VALVE := FALSE OR NOT LOWP OR STOP OR VALVE AND NOT ACK;\n\
        HORN := FALSE OR NOT LOWP;\n\
        END_PROGRAM\n"
        .as_slice();
    let matrix = read(rt.alloc(), bytes)?;
    let text = written(rt.alloc(), &matrix)?;
    assert_eq!(rt; text.bytes(), program);
    Ok(())
}

#[test]
fn a_bad_line_is_told_with_its_first_cause(rt: HostRuntime) -> Result<(), Fail> {
    for (bytes, line, cause) in [
        (b"MATRIX 1\nRESET R\n".as_slice(), 3, MatrixCause::End),
        (
            b"MATRIX 1\nRESET A\nRESET B\n".as_slice(),
            3,
            MatrixCause::Word,
        ),
        (b"MATRIX 1\nCAUSE A high\n".as_slice(), 2, MatrixCause::Form),
        (
            b"MATRIX 1\nRESET ton\n".as_slice(),
            2,
            MatrixCause::Reserved,
        ),
        (
            b"MATRIX 1\nCAUSE A LOW\nRESET a\n".as_slice(),
            3,
            MatrixCause::Twice,
        ),
        (
            b"MATRIX 1\nLINK TON E\n".as_slice(),
            2,
            MatrixCause::Unknown,
        ),
    ] {
        assert!(rt;
            refuses(rt.alloc(), bytes, line, cause),
            "line {line}: {cause:?}"
        );
    }
    Ok(())
}
