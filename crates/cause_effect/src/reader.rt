ghost use Rattle.std.specs.Prelude.{◌≡◌, ◌+◌, ◌<◌, ◌^◌};
ghost use Rattle.script_lines.specs.Words.{words_of};
ghost use Rattle.cause_effect.specs.Standing.{after, beginning, worded};
ghost use Rattle.cause_effect.specs.Inner.Steps.{Steps, finished};

use crate::fault::{LineFault, MatrixCause, MatrixFault};
use crate::keyword::{Keyword, follows, read_keyword};
use crate::matrix::Matrix;
use crate::statement::read_statement;
use script_lines::{cut_word, is_comment};
use std::alloc::Global;
use std::marker::Model;

/// A matrix as far as it was read.
#[derive(Drop)]
pub struct Reader {
    last: Option<Keyword>,
    matrix: Matrix,
}

impl Model for Reader {
    ghost use Rattle.cause_effect.specs.Standing.{Standing};

    ghost Value = { Standing };

    ghost view = { λ r. record { last = r.last; matrix = r.matrix } };
}

impl Reader {
    /// Nothing was read yet.
    pub(crate) fn new(alloc: Global) -> Reader
        ensures { result ≡ beginning }
    {
        Reader {
            last: None,
            matrix: Matrix::new(alloc),
        }
    }

    /// Takes one line more.
    pub(crate) fn take(&mut self, content: &[u8]) -> Result<(), LineFault>
        ensures { Steps (after self.old content.now) result self.new }
    {
        match cut_word(content) {
            None => Ok(()),
            Some((word, rest)) => {
                if is_comment(word) {
                    return Ok(());
                }
                self.take_words(read_keyword(word), rest)
            }
        }
    }

    /// Takes a line by its first word.
    fn take_words(&mut self, keyword: Option<Keyword>, rest: &[u8]) -> Result<(), LineFault>
        ensures { Steps (worded self.old keyword (words_of rest.now)) result self.new }
    {
        let Some(keyword) = keyword else {
            return Err(LineFault::Cause(MatrixCause::Word));
        };
        if !follows(self.last, keyword) {
            return Err(LineFault::Cause(MatrixCause::Word));
        }
        let Some(statement) = read_statement(keyword, rest) else {
            return Err(LineFault::Cause(MatrixCause::Form));
        };
        self.matrix.take(statement)?;
        self.last = Some(keyword);
        Ok(())
    }

    /// The matrix, where the lines came to its end.
    pub(crate) fn finish(self, lines: u32) -> Result<Matrix, MatrixFault>
        requires { lines + 1 < 2 ^ 32 }
        ensures { result ≡ finished lines self.matrix self.last }
    {
        if self.last != Some(Keyword::End) {
            return Err(MatrixFault::At {
                line: lines + 1,
                cause: MatrixCause::End,
            });
        }
        Ok(self.matrix)
    }
}
