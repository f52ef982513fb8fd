ghost use Rattle.std.specs.Prelude.{◌≡◌, ◌≤◌, ◌<◌};
ghost use Rattle.st_tree.specs.Nesting as spec;

use st_tree::{Fixed, Token, TokenKind};

/// One more than the greatest nesting.
const TOO_DEEP: u32 = 65;

fn opens(word: Fixed) -> bool
    ensures { result ≡ spec.opens word }
{
    matches!(
        word,
        Fixed::OpenParen | Fixed::OpenBracket | Fixed::If | Fixed::Case | Fixed::For
    )
}

fn closes(word: Fixed) -> bool
    ensures { result ≡ spec.closes word }
{
    matches!(
        word,
        Fixed::CloseParen | Fixed::CloseBracket | Fixed::EndIf | Fixed::EndCase | Fixed::EndFor
    )
}

/// The nesting with one token more.
fn nesting_with(depth: u32, token: &Token) -> u32
    requires { depth ≤ 64 }
    ensures value { result ≡ spec.nesting_with depth token.now.kind }
    ensures small { result ≤ 65 }
{
    match token.kind {
        TokenKind::Fixed(word) => {
            if opens(word) {
                depth + 1
            } else if closes(word) {
                depth.saturating_sub(1)
            } else {
                depth
            }
        }
        TokenKind::Name(_) => depth,
        TokenKind::Number(_) => depth,
    }
}

/// The first token at which the nesting becomes 65.
#[tactic(auto, unfolding(st_tree::specs::Nesting::first_too_deep))]
pub fn first_too_deep(tokens: &[Token]) -> Option<usize>
    ensures { result ≡ spec.first_too_deep tokens.now }
{
    let mut depth = 0;
    for (at, token) in tokens.iter().enumerate() {
        depth = nesting_with(depth, token);
        if depth == TOO_DEEP {
            return Some(at);
        }
    }
    None
}
