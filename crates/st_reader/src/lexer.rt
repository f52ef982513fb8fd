ghost use Rattle.st_reader.specs.Reading.{IsLexed};

use crate::fault::ReadFault;
use crate::item::item;
use st_tree::Tokens;
use std::alloc::Global;
use tri_base::Text;

/// The tokens that a text spells, or the first byte at which none begins.
pub fn lex(alloc: Global, text: &Text) -> Result<Tokens, ReadFault>
    ensures { IsLexed text.now.list result }
{
    let bytes = text.bytes();
    let mut tokens = Tokens::new(alloc);
    let mut place = 0;
    while place < bytes.len() {
        match item(&bytes[place..]) {
            Ok((kind, length)) => {
                if let Some(kind) = kind {
                    tokens.add(kind, place).map_err(|_| ReadFault::NoMemory)?;
                }
                place += length;
            }
            Err(cause) => return Err(ReadFault::Lex { place, cause }),
        }
    }
    Ok(tokens)
}
