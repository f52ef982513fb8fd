ghost use Rattle.std.specs.Prelude.{◌≡◌, ◌+◌, ◌≤◌, length, pos, replicate, true, if◌then◌else◌, IsOk, OnOk, OnErr};
ghost use Rattle.tri_base.specs.Rows.{HasRoom};

use tri_base::{NoMemory, Words};

/// Goes on with what is known, or begins with zeros.
pub fn hold(image: &mut Words, room: &mut usize, known: bool, size: usize) -> Result<(), NoMemory>
    requires kept { HasRoom room.old image.old }
    ensures list { OnOk result
        (image.new.list ≡ if known then image.old.list else replicate size (pos 0)) }
    ensures grown { OnOk result (room.old ≤ room.new) }
    ensures kept { HasRoom room.new image.new }
    ensures refused { OnErr result ((image.new ≡ image.old) × (room.new ≡ room.old)) }
    ensures goes_on { known ≡ true → IsOk result }
    ensures serves { size ≤ room.old → IsOk result }
{
    if known {
        return Ok(());
    }
    grow(image, room, size)?;
    clear_image(image, size);
    Ok(())
}

/// Keeps room for so many words in all.
pub fn grow(image: &mut Words, room: &mut usize, size: usize) -> Result<(), NoMemory>
    requires kept { HasRoom room.old image.old }
    ensures list { image.new.list ≡ image.old.list }
    ensures enough { OnOk result (size ≤ room.new) }
    ensures grown { room.old ≤ room.new }
    ensures kept { HasRoom room.new image.new }
    ensures refused { OnErr result ((image.new ≡ image.old) × (room.new ≡ room.old)) }
    ensures serves { size ≤ room.old → IsOk result }
{
    if *room < size {
        image.reserve(size.saturating_sub(image.len()))?;
        *room = size;
    }
    Ok(())
}

/// Makes an image of zeros.
#[tactic(auto, using(std::proofs::lemmas::List::replicate_more))]
fn clear_image(image: &mut Words, size: usize)
    requires { HasRoom size image.old }
    ensures list { image.new.list ≡ replicate size (pos 0) }
    ensures room { image.new.spare + length image.new.list
        ≡ image.old.spare + length image.old.list }
{
    image.clear();
    for _place in 0..size {
        image.add(0);
    }
}
