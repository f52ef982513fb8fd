ghost use Rattle.std.specs.Prelude.{◌≡◌, ◌≤◌, ◌<◌, ◌+◌, ◌++◌, ◌^◌, length, false};
ghost use Rattle.std.specs.Ordering.{int_eq};
ghost use Rattle.tri_base.specs.Rows.{KeepsRoom};
ghost use Rattle.memory_compare.specs.Changes.{changes_of, addresses_in, values_in};
ghost use Rattle.memory_compare.specs.Inner.OneChange.{change_at};

use tri_base::Words;

/// Adds the places at which two lists differ, counted from 0 and rising, and the new number of
/// each. It looks at each word once and takes no memory.
#[tactic(auto, using(crate::proofs::Steps::addresses_differ, crate::proofs::Steps::values_differ))]
pub fn changes(old: &Words, new: &Words, addresses: &mut Words, values: &mut Words)
    requires same { length old.now.list ≡ length new.now.list }
    requires addresses_room { length old.now.list ≤ addresses.old.spare }
    requires values_room { length old.now.list ≤ values.old.spare }
    ensures addresses { addresses.new.list
        ≡ addresses.old.list ++ addresses_in (changes_of old.now.list new.now.list) }
    ensures values { values.new.list
        ≡ values.old.list ++ values_in (changes_of old.now.list new.now.list) }
    ensures rooms { KeepsRoom addresses.old addresses.new × KeepsRoom values.old values.new }
{
    let before = old.items();
    let after = new.items();
    for address in 0..before.len() {
        add_change(
            address,
            &before[address],
            &after[address],
            addresses,
            values,
        );
    }
}

/// Adds the change of one place, where its number differs.
pub fn add_change(
    address: usize,
    before: &i64,
    after: &i64,
    addresses: &mut Words,
    values: &mut Words,
)
    requires cast { address < 2 ^ 63 }
    requires addresses_room { int_eq before.now after.now ≡ false → 0 < addresses.old.spare }
    requires values_room { int_eq before.now after.now ≡ false → 0 < values.old.spare }
    ensures addresses { addresses.new.list
        ≡ addresses.old.list ++ addresses_in (change_at address before.now after.now) }
    ensures values { values.new.list
        ≡ values.old.list ++ values_in (change_at address before.now after.now) }
    ensures addresses_room { addresses.new.spare + length (change_at address before.now after.now)
        ≡ addresses.old.spare }
    ensures values_room { values.new.spare + length (change_at address before.now after.now)
        ≡ values.old.spare }
    ensures rooms { KeepsRoom addresses.old addresses.new × KeepsRoom values.old values.new }
{
    if *before != *after {
        addresses.add(address as i64);
        values.add(*after);
    }
}
