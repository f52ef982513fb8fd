//! Parts that are repeated.

ghost use Rattle.st_parser.specs.Inner.FunctionValues.{ReadsMany};

use crate::cursor::Cursor;
use crate::refusal::Refusal;
use st_tree::Items;
use std::alloc::Global;

/// The part as often as one comes, and at most so many times.
pub fn many<A: Drop, C, P>(
    alloc: Global,
    turns: usize,
    tokens: &mut Cursor<'_>,
    comes: C,
    part: P,
) -> Result<Items<A>, Refusal>
where
    C: Fn(&Cursor<'_>) -> bool,
    P: Fn(&mut Cursor<'_>) -> Result<A, Refusal>,
    requires comes { C.IsAlwaysCallable comes }
    requires part { P.IsAlwaysCallable part }
    ensures { ReadsMany turns (C.post comes) (P.post part) tokens.old result tokens.new }
{
    let mut found = Items::new(alloc);
    for _turn in 0..turns {
        if !comes(tokens) {
            return Ok(found);
        }
        let next = part(tokens)?;
        found.push(next).map_err(|_| Refusal::NoMemory)?;
    }
    Err(tokens.refusal())
}
