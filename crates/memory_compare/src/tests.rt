ghost use Rattle.std.specs.Prelude.{◌≡◌, IfOk};

use crate::{Judgement, changes, changes_of, judge, window};
use leg_packet::Packet;
use std::alloc::Global;
use std::test::Fail;
use tri_base::{NoMemory, Side, Text, Touched, Words, push_bytes};

fn words_of(alloc: Global, items: &[i64]) -> Result<Words, NoMemory>
    ensures { IfOk result (λ words. words.list ≡ items.now) }
{
    let mut words = Words::new(alloc);
    words.reserve(items.len())?;
    words.extend(items);
    Ok(words)
}

fn packet_of(alloc: Global, items: &[i64]) -> Result<Packet, NoMemory>
    ensures { IfOk result (λ packet. packet ≡ items.now) }
{
    let mut packet = Packet::blank(alloc)?;
    packet.write_words(&words_of(alloc, items)?)?;
    Ok(packet)
}

#[test]
fn changes_stand_by_rising_address(rt: HostRuntime) -> Result<(), Fail> {
    // one scan of a shift register, as it should be and with a 9 poked into its first word
    let old = words_of(rt.alloc(), &[0, 0, 5, 0])?;
    let new = words_of(rt.alloc(), &[5, 0, 0, 5])?;
    let poked = words_of(rt.alloc(), &[9, 0, 5, 0])?;
    let of_poked = words_of(rt.alloc(), &[5, 9, 0, 5])?;
    let mut addresses = Words::new(rt.alloc());
    let mut values = Words::new(rt.alloc());
    addresses.reserve(8)?;
    values.reserve(8)?;
    changes(&old, &new, &mut addresses, &mut values);
    assert_eq!(rt; addresses.items(), [0, 2, 3].as_slice());
    assert_eq!(rt; values.items(), [5, 0, 5].as_slice());
    changes(&poked, &of_poked, &mut addresses, &mut values);
    assert_eq!(rt; addresses.items(), [0, 2, 3, 0, 1, 2, 3].as_slice());
    assert_eq!(rt; values.items(), [5, 0, 5, 5, 9, 0, 5].as_slice());
    Ok(())
}

#[test]
fn stores_are_changes_where_the_number_differs(rt: HostRuntime) -> Result<(), Fail> {
    let words = words_of(rt.alloc(), &[1, 0, 7])?;
    let mut touched = Touched::new(rt.alloc(), 3)?;
    touched.note(2, 8);
    touched.note(1, 0);
    touched.note(0, 5);
    touched.note(0, 6);
    let mut addresses = Words::new(rt.alloc());
    let mut values = Words::new(rt.alloc());
    addresses.reserve(3)?;
    values.reserve(3)?;
    changes_of(&touched, &words, &mut addresses, &mut values);
    assert_eq!(rt; addresses.items(), [0, 2].as_slice());
    assert_eq!(rt; values.items(), [1, 7].as_slice());
    Ok(())
}

#[test]
fn the_last_window_is_as_long_as_what_is_left(rt: HostRuntime) -> Result<(), Fail> {
    let mut text = Text::new(rt.alloc());
    push_bytes(&mut text, &[65; 62])?;
    let words = words_of(rt.alloc(), &[-1, 300, 7])?;
    for (turn, length, last) in [(0, 64, 300), (1, 1, 7), (2, 0, 0), (319, 0, 0)] {
        let mut shown = Words::new(rt.alloc());
        shown.reserve(64)?;
        window(&text, &words, turn, &mut shown);
        assert_eq!(rt; shown.len(), length, "{turn}");
        assert_eq!(rt; shown.items().last().copied().unwrap_or(0), last, "{turn}");
    }
    Ok(())
}

#[test]
fn a_leg_is_judged_by_its_neighbours(rt: HostRuntime) -> Result<(), Fail> {
    // two results that differ in one word of memory alone
    let one = packet_of(rt.alloc(), &[2, 0, 0, 1, 1, 88, 5, 0, 1])?;
    let other = packet_of(rt.alloc(), &[2, 0, 0, 1, 1, 88, 9, 0, 1])?;
    let learns = packet_of(rt.alloc(), &[3])?;
    let absent = Packet::blank(rt.alloc())?;
    let agrees = Judgement::Agrees { accused: None };
    let accuses_left = Judgement::Agrees {
        accused: Some(Side::Left),
    };
    let accuses_right = Judgement::Agrees {
        accused: Some(Side::Right),
    };
    for (own, left, right, judgement) in [
        (&one, &one, &one, agrees),
        (&one, &one, &other, accuses_right),
        (&one, &other, &one, accuses_left),
        (&other, &one, &one, Judgement::Minority),
        (&one, &learns, &learns, Judgement::NoVote),
        (&one, &absent, &absent, Judgement::NoVote),
        (&one, &other, &learns, Judgement::NoVote),
        (&learns, &learns, &learns, agrees),
        (&absent, &absent, &one, accuses_right),
    ] {
        assert_eq!(rt; judge(own, left, right), judgement);
    }
    Ok(())
}
