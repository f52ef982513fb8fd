ghost use Rattle.std.specs.Prelude.{◌≡◌, length, Some};
ghost use Rattle.st_parser.specs.Inner.Parsers.{Reads, ahead, rest, sees, sees_name, sees_number, expect, place_of, name, number, found, place_ahead, sees_some, entry, entry_at};
ghost use Rattle.st_parser.specs.Inner.FunctionValues.{GivenBy, ReadsBy};
ghost use Rattle.st_parser.specs.Inner.ReadStatements.{sees_label, sees_statement, starts_statement as starts};
ghost use Rattle.st_parser.specs.Inner.ReadPrograms.{sees_block, finish};

use crate::refusal::Refusal;
use crate::tables::sign_word;
use st_tree::{Fixed, PlacedName, Token, TokenKind};
use std::marker::Model;

/// The tokens that are left.
#[derive(Drop)]
pub struct Cursor<'a> {
    tokens: &'a [Token],
}

impl<'a> Model for Cursor<'a> {
    ghost use Rattle.std.specs.Prelude.{List};
    ghost use Rattle.st_tree.specs.declared.token.Token.{Token};

    ghost Value = { List Token };

    ghost view = { λ c. c.tokens.now };
}

impl<'a> Cursor<'a> {
    pub fn new(tokens: &'a [Token]) -> Cursor<'a>
        ensures { result ≡ tokens.now }
    {
        Cursor { tokens }
    }

    /// No program goes on with the next token.
    pub fn refusal(&self) -> Refusal
        ensures { result ≡ Refusal.Left (length self.now) }
    {
        Refusal::Left(self.tokens.len())
    }

    pub fn step(&mut self)
        ensures { self.new ≡ rest self.old }
    {
        if let Some((_, more)) = self.tokens.split_first() {
            self.tokens = more;
        }
    }

    pub fn sees(&self, word: Fixed) -> bool
        ensures { result ≡ sees word (ahead self.now) }
    {
        match self.tokens {
            [token, ..] => match token.kind {
                TokenKind::Fixed(other) => other == word,
                _ => false,
            },
            [] => false,
        }
    }

    pub fn sees_name(&self) -> bool
        ensures { result ≡ sees_name (ahead self.now) }
    {
        match self.tokens {
            [token, ..] => matches!(token.kind, TokenKind::Name(_)),
            [] => false,
        }
    }

    pub fn sees_number(&self) -> bool
        ensures { result ≡ sees_number (ahead self.now) }
    {
        match self.tokens {
            [token, ..] => matches!(token.kind, TokenKind::Number(_)),
            [] => false,
        }
    }

    pub fn name(&mut self) -> Result<PlacedName, Refusal>
        ensures { Reads (name self.old) result self.new }
    {
        match self.tokens {
            [token, more @ ..] => match token.kind {
                TokenKind::Name(name) => {
                    let place = token.place;
                    self.tokens = more;
                    Ok(PlacedName { name, place })
                }
                _ => Err(self.refusal()),
            },
            [] => Err(self.refusal()),
        }
    }

    pub fn number(&mut self) -> Result<(u32, usize), Refusal>
        ensures { Reads (number self.old) result self.new }
    {
        match self.tokens {
            [token, more @ ..] => match token.kind {
                TokenKind::Number(number) => {
                    let place = token.place;
                    self.tokens = more;
                    Ok((number, place))
                }
                _ => Err(self.refusal()),
            },
            [] => Err(self.refusal()),
        }
    }

    pub fn place_of(&mut self, word: Fixed) -> Result<usize, Refusal>
        ensures { Reads (place_of word self.old) result self.new }
    {
        match self.tokens {
            [token, more @ ..] => match token.kind {
                TokenKind::Fixed(other) if other == word => {
                    let place = token.place;
                    self.tokens = more;
                    Ok(place)
                }
                _ => Err(self.refusal()),
            },
            [] => Err(self.refusal()),
        }
    }

    pub fn expect(&mut self, word: Fixed) -> Result<(), Refusal>
        ensures { Reads (expect word self.old) result self.new }
    {
        if self.sees(word) {
            self.step();
            Ok(())
        } else {
            Err(self.refusal())
        }
    }

    /// The reserved word or symbol that comes next.
    fn word(&self) -> Option<Fixed>
        ensures { result ≡ found (λ w. Some w) (ahead self.now) }
    {
        match self.tokens {
            [token, ..] => match token.kind {
                TokenKind::Fixed(word) => Some(word),
                _ => None,
            },
            [] => None,
        }
    }

    /// The byte place of the next token.
    pub fn place(&self) -> usize
        ensures { result ≡ place_ahead self.now }
    {
        match self.tokens {
            [token, ..] => token.place,
            [] => 0,
        }
    }

    /// What a table gives of the reserved word or symbol that comes next.
    fn found<A, T: Fn(Fixed) -> Option<A>>(&self, table: T) -> Option<A>
        requires { T.IsAlwaysCallable table }
        ensures { GivenBy found (T.post table) self.now result }
    {
        match self.word() {
            Some(word) => table(word),
            None => None,
        }
    }

    /// A table gives something of the next token.
    pub fn sees_some<A: Drop, T: Fn(Fixed) -> Option<A>>(&self, table: T) -> bool
        requires { T.IsAlwaysCallable table }
        ensures { GivenBy sees_some (T.post table) self.now result }
    {
        self.found(table).is_some()
    }

    /// What a table gives of the next token.
    pub fn entry<A, T: Fn(Fixed) -> Option<A>>(&mut self, table: T) -> Result<A, Refusal>
        requires { T.IsAlwaysCallable table }
        ensures { ReadsBy entry (T.post table) self.old result self.new }
    {
        match self.found(table) {
            Some(entry) => {
                self.step();
                Ok(entry)
            }
            None => Err(self.refusal()),
        }
    }

    /// What a table gives of the next token, and its place.
    pub fn entry_at<A, T: Fn(Fixed) -> Option<A>>(
        &mut self,
        table: T,
    ) -> Result<(A, usize), Refusal>
        requires { T.IsAlwaysCallable table }
        ensures { ReadsBy entry_at (T.post table) self.old result self.new }
    {
        let place = self.place();
        let entry = self.entry(table)?;
        Ok((entry, place))
    }

    /// Nothing is left.
    pub fn end(&self) -> Result<(), Refusal>
        ensures { Reads (finish self.now) result self.now }
    {
        match self.tokens {
            [] => Ok(()),
            [_, ..] => Err(self.refusal()),
        }
    }

    /// A label comes next.
    pub fn sees_label(&self) -> bool
        ensures { result ≡ sees_label (ahead self.now) }
    {
        self.sees_number() || self.sees_some(sign_word)
    }

    /// A statement comes next.
    pub fn sees_statement(&self) -> bool
        ensures { result ≡ sees_statement (ahead self.now) }
    {
        match self.tokens {
            [token, ..] => match token.kind {
                TokenKind::Name(_) => true,
                TokenKind::Fixed(word) => starts_statement(word),
                TokenKind::Number(_) => false,
            },
            [] => false,
        }
    }

    /// A block of declarations comes next.
    pub fn sees_block(&self) -> bool
        ensures { result ≡ sees_block (ahead self.now) }
    {
        self.sees(Fixed::Var) || self.sees(Fixed::VarExternal)
    }
}

fn starts_statement(word: Fixed) -> bool
    ensures { result ≡ starts word }
{
    matches!(
        word,
        Fixed::Semicolon | Fixed::If | Fixed::Case | Fixed::For | Fixed::Exit | Fixed::Return
    )
}
