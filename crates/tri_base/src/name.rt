ghost use Rattle.std.specs.Prelude.{◌≡◌, ◌<◌, ◌≤◌, length, Some};
ghost use Rattle.tri_base.specs.Names.{is_name, is_word_byte, name_of};
ghost use Rattle.std.specs.List.{list_all};

use std::marker::Model;

/// A name: 1 to 32 capitals, digits and underscores, the first of which is no digit.
#[derive(Clone, Copy, Debug, PartialEq, Eq, Hash)]
pub struct Name {
    len: usize,
    bytes: [u8; 32],
}

impl Model for Name {
    ghost use Rattle.std.specs.Prelude.{List, ℕ, take, length};
    ghost use Rattle.std.specs.Coded.{coded_list, coded_ℕ};

    ghost Value = { List ℕ };

    ghost coded = { coded_list coded_ℕ };

    ghost use Rattle.tri_base.specs.Inner.NameFields.{IsKept, padded, fields_back};

    ghost view = { λ n. take n.len n.bytes };

    ghost invariant = { IsKept };

    ghost inverse = { λ t. record { len = length t; bytes = padded t } };

    ghost inverse_ok = { fields_back };
}

impl Name {
    /// The name that a text spells, in capitals; None exactly for a text that is no name.
    pub fn read(text: &[u8]) -> Option<Name>
        ensures { result ≡ name_of text.now }
    {
        if !spells_name(text) {
            return None;
        }
        let mut bytes = [0u8; 32];
        for (at, byte) in text.iter().enumerate() {
            bytes[at] = byte.to_ascii_uppercase();
        }
        Some(Name {
            len: text.len(),
            bytes,
        })
    }

    /// Lends the name's bytes. Read again, they give the same name.
    pub fn bytes(&self) -> &[u8]
        ensures value { result.now ≡ self.now }
        ensures again { name_of self.now ≡ Some self.now }
        ensures some { 0 < length self.now }
        ensures fits { length self.now ≤ 32 }
    {
        &self.bytes[..self.len]
    }
}

/// Whether a text is a name.
fn spells_name(text: &[u8]) -> bool
    ensures { result ≡ is_name text.now }
{
    if text.is_empty() || text.len() > 32 {
        return false;
    }
    are_word_bytes(text) && !text[0].is_ascii_digit()
}

/// Whether each byte is a letter, a digit or an underscore.
fn are_word_bytes(text: &[u8]) -> bool
    ensures { result ≡ list_all is_word_byte text.now }
{
    text.iter()
        .all(|byte| byte.is_ascii_alphanumeric() || *byte == b'_')
}
