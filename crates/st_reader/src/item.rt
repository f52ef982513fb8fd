ghost use Rattle.std.specs.Prelude.{◌≡◌, ◌≤◌, ◌<◌, ◌+◌, ◌^◌, length, true, false, IfOk, IfSome};
ghost use Rattle.std.specs.List.{prefix_len, list_all};
ghost use Rattle.tri_base.specs.Names.{is_word_byte as is_word, starts_with_digit};
ghost use Rattle.st_tree.specs.Lexes as spec;
ghost use Rattle.st_tree.specs.Words.{symbol_of as symbol_at};

use crate::numeral::numeral;
use crate::words::{reserved_word, symbol_of};
use st_tree::TokenKind;
use tri_base::{LexCause, Name};

/// What begins a text: a token or, where it is None, white space or a comment; and how many
/// bytes it has.
pub type Item = Result<(Option<TokenKind>, usize), LexCause>;

/// How many bytes a name has at most.
const NAME_LIMIT: usize = 32;

fn is_white(byte: u8) -> bool
    ensures { result ≡ spec.is_white byte }
{
    byte == b' ' || byte == b'\t' || byte == b'\r' || byte == b'\n'
}

fn is_word_byte(byte: u8) -> bool
    ensures { result ≡ is_word byte }
{
    byte.is_ascii_alphanumeric() || byte == b'_'
}

fn is_number_byte(byte: u8) -> bool
    ensures { result ≡ spec.is_number_byte byte }
{
    is_word_byte(byte) || byte == b'#'
}

/// How many bytes at the front are letters, digits and underscores.
fn word_length(text: &[u8]) -> usize
    ensures value { result ≡ prefix_len is_word text.now }
    ensures within { result ≤ length text.now }
{
    for (at, byte) in text.iter().enumerate() {
        if !is_word_byte(*byte) {
            return at;
        }
    }
    text.len()
}

/// How many bytes at the front go on with a number.
fn number_length(text: &[u8]) -> usize
    ensures value { result ≡ prefix_len spec.is_number_byte text.now }
    ensures within { result ≤ length text.now }
{
    for (at, byte) in text.iter().enumerate() {
        if !is_number_byte(*byte) {
            return at;
        }
    }
    text.len()
}

/// How many bytes there are up to and with the first `*)`.
fn comment_end(text: &[u8]) -> Option<usize>
    ensures value { result ≡ spec.comment_end text.now }
    ensures within { IfSome result (λ n. n ≤ length text.now) }
{
    for at in 0..text.len() {
        if text[at..].starts_with(b"*)") {
            return Some(at + 2);
        }
    }
    None
}

/// A comment, of whose text this is what stands behind its first two bytes.
fn comment(text: &[u8]) -> Item
    requires { length text.now + 2 < 2 ^ 63 }
    ensures value { result ≡ spec.comment_item (spec.comment_end text.now) }
    ensures within { IfOk result (λ x. (1 ≤ x.1) × (x.1 ≤ length text.now + 2)) }
{
    match comment_end(text) {
        Some(length) => Ok((None, length + 2)),
        None => Err(LexCause::OpenComment),
    }
}

/// A reserved word or a name, of whose bytes this is all.
fn word(text: &[u8]) -> Item
    requires some { 0 < length text.now }
    requires word_bytes { list_all is_word text.now ≡ true }
    requires no_digit { starts_with_digit text.now ≡ false }
    ensures value { result ≡ spec.word_item text.now }
    ensures within { IfOk result (λ x. x.1 ≡ length text.now) }
{
    if text.len() > NAME_LIMIT {
        return Err(LexCause::NameTooLong);
    }
    match Name::read(text) {
        Some(name) => match reserved_word(name.bytes()) {
            Some(word) => Ok((Some(TokenKind::Fixed(word)), text.len())),
            None => Ok((Some(TokenKind::Name(name)), text.len())),
        },
        None => unreachable!(),
    }
}

/// A number, of whose bytes this is all.
fn number(text: &[u8]) -> Item
    ensures value { result ≡ spec.number_item text.now }
    ensures within { IfOk result (λ x. x.1 ≡ length text.now) }
{
    match numeral(text) {
        Ok(number) => Ok((Some(TokenKind::Number(number)), text.len())),
        Err(cause) => Err(cause),
    }
}

/// The symbol at the front of a text.
fn symbol(text: &[u8]) -> Item
    ensures value { result ≡ spec.symbol_item (symbol_at text.now) }
    ensures within { IfOk result (λ x. (1 ≤ x.1) × (x.1 ≤ length text.now)) }
{
    match symbol_of(text) {
        Some((word, length)) => Ok((Some(TokenKind::Fixed(word)), length)),
        None => Err(LexCause::BadByte),
    }
}

/// The item at the front.
#[tactic(auto, unfolding(st_tree::specs::Lexes::item))]
pub fn item(text: &[u8]) -> Item
    requires { 0 < length text.now }
    ensures value { result ≡ spec.item text.now }
    ensures within { IfOk result (λ x. (1 ≤ x.1) × (x.1 ≤ length text.now)) }
{
    let first = text[0];
    if is_white(first) {
        Ok((None, 1))
    } else if text.starts_with(b"(*") {
        comment(&text[2..])
    } else if first.is_ascii_digit() {
        number(&text[..number_length(text)])
    } else if is_word_byte(first) {
        word(&text[..word_length(text)])
    } else {
        symbol(text)
    }
}
