ghost use Rattle.std.specs.Prelude.{◌≡◌, ◌≤◌, [], IfOk};

use std::alloc::Global;
use tri_base::{NoMemory, Words};

/// No words, with room for so many.
pub fn with_room(alloc: Global, room: usize) -> Result<Words, NoMemory>
    ensures { IfOk result (λ words. (words.list ≡ []) × (room ≤ words.spare)) }
{
    let mut words = Words::new(alloc);
    words.reserve(room)?;
    Ok(words)
}
