ghost use Rattle.std.specs.Prelude.{◌≡◌};
ghost use Rattle.st_tree.specs.Words as spec;
ghost use Rattle.cause_effect.specs.Inner.Entries.{entries};

use st_tree::Fixed;

/// The reserved words, in capitals.
const RESERVED: [(&[u8], Fixed); 47] = [
    (b"PROGRAM", Fixed::Program),
    (b"END_PROGRAM", Fixed::EndProgram),
    (b"VAR", Fixed::Var),
    (b"VAR_EXTERNAL", Fixed::VarExternal),
    (b"END_VAR", Fixed::EndVar),
    (b"IF", Fixed::If),
    (b"THEN", Fixed::Then),
    (b"ELSIF", Fixed::Elsif),
    (b"ELSE", Fixed::Else),
    (b"END_IF", Fixed::EndIf),
    (b"CASE", Fixed::Case),
    (b"OF", Fixed::Of),
    (b"END_CASE", Fixed::EndCase),
    (b"FOR", Fixed::For),
    (b"TO", Fixed::To),
    (b"BY", Fixed::By),
    (b"DO", Fixed::Do),
    (b"END_FOR", Fixed::EndFor),
    (b"EXIT", Fixed::Exit),
    (b"RETURN", Fixed::Return),
    (b"AND", Fixed::And),
    (b"OR", Fixed::Or),
    (b"XOR", Fixed::Xor),
    (b"NOT", Fixed::Not),
    (b"MOD", Fixed::Mod),
    (b"TRUE", Fixed::True),
    (b"FALSE", Fixed::False),
    (b"ARRAY", Fixed::Array),
    (b"BOOL", Fixed::Bool),
    (b"INT", Fixed::Int),
    (b"DINT", Fixed::Dint),
    (b"R_TRIG", Fixed::RTrig),
    (b"F_TRIG", Fixed::FTrig),
    (b"SR", Fixed::Sr),
    (b"RS", Fixed::Rs),
    (b"CTU", Fixed::Ctu),
    (b"CTD", Fixed::Ctd),
    (b"TON", Fixed::Ton),
    (b"TOF", Fixed::Tof),
    (b"TP", Fixed::Tp),
    (b"ABS", Fixed::Abs),
    (b"MIN", Fixed::Min),
    (b"MAX", Fixed::Max),
    (b"LIMIT", Fixed::Limit),
    (b"SEL", Fixed::Sel),
    (b"INT_TO_DINT", Fixed::IntToDint),
    (b"DINT_TO_INT", Fixed::DintToInt),
];

/// The token that a table has for a word.
fn word_among(mut table: &[(&[u8], Fixed)], text: &[u8]) -> Option<Fixed>
    ensures { result ≡ spec.word_among (entries table.entry.now) text.now }
{
    while let [entry, rest @ ..] = table {
        if entry.0 == text {
            return Some(entry.1);
        }
        table = rest;
    }
    None
}

/// The reserved word that is written so, in capitals.
#[tactic(auto, unfolding(st_tree::specs::Words::reserved_word))]
pub fn reserved_word(text: &[u8]) -> Option<Fixed>
    ensures { result ≡ spec.reserved_word text.now }
{
    word_among(&RESERVED, text)
}
