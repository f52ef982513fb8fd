ghost use Rattle.std.specs.Prelude.{◌≡◌, [], ◌∷◌, ◌++◌, OnOk, OnErr};
ghost use Rattle.st_tree.specs.Pieces.{token_at};

use crate::token::{Token, TokenKind};
use sqlite_items::Items;
use std::alloc::Global;
use std::marker::Model;
use tri_base::NoMemory;

/// The tokens of a text, in order.
#[derive(Drop)]
pub struct Tokens {
    items: Items<Token>,
}

impl Model for Tokens {
    ghost use Rattle.std.specs.Prelude.{List};
    ghost use Rattle.st_tree.specs.declared.token.Token.{Token};

    ghost Value = { List Token };

    ghost view = { λ t. t.items };
}

impl Tokens {
    /// No tokens.
    pub fn new(alloc: Global) -> Tokens
        ensures { result ≡ [] }
    {
        Tokens {
            items: Items::new(alloc),
        }
    }

    /// Adds a token at the end. A refusal changes nothing.
    pub fn add(&mut self, kind: TokenKind, place: usize) -> Result<(), NoMemory>
        ensures ok { OnOk result (self.new ≡ self.old ++ token_at kind place ∷ []) }
        ensures err { OnErr result (self.new ≡ self.old) }
    {
        self.items.push(Token { kind, place }).map_err(|_| NoMemory)
    }

    /// Lends the tokens.
    pub fn items(&self) -> &[Token]
        ensures { result.now ≡ self.now }
    {
        self.items.as_slice()
    }
}
