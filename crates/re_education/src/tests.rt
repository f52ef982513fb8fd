use crate::{Image, Learner, Progress};
use leg_packet::Packet;
use std::alloc::Global;
use std::test::Fail;
use tri_base::{NoMemory, Words, push_word};

fn add_all(words: &mut Words, items: &[i64]) -> Result<(), NoMemory> {
    for item in items {
        push_word(words, *item)?;
    }
    Ok(())
}

/// A packet of the words that stand in a running result: the numbers in front, the window, and what
/// stands behind it.
fn packet_of(
    alloc: Global,
    front: &[i64],
    window: &[i64],
    behind: &[i64],
) -> Result<Packet, NoMemory> {
    let mut words = Words::new(alloc);
    add_all(&mut words, front)?;
    add_all(&mut words, window)?;
    add_all(&mut words, behind)?;
    let mut packet = Packet::blank(alloc)?;
    packet.write_words(&words)?;
    Ok(packet)
}

/// How many windows are told: none at Waiting, 320 at Ready.
fn told(
    learner: &mut Learner,
    alloc: Global,
    left: &Packet,
    right: &Packet,
) -> Result<u32, NoMemory> {
    match learner.learn(alloc, left, right)? {
        Progress::Waiting => Ok(0),
        Progress::Learned(windows) => Ok(windows),
        Progress::Ready(_) => Ok(320),
    }
}

/// A running result of a memory of 60 bytes and 68 words, which are two windows.
fn shown(alloc: Global, epoch: i64, turn: i64, output: i64) -> Result<Packet, NoMemory> {
    packet_of(alloc, &[2, epoch, turn, 60, 68], &[65; 64], &[0, output])
}

/// Learns from two results, of which the right one has an output that may differ.
fn learn_one(
    learner: &mut Learner,
    alloc: Global,
    epoch: i64,
    turn: i64,
    output: i64,
) -> Result<u32, NoMemory> {
    let left = shown(alloc, epoch, turn, 0)?;
    let right = shown(alloc, epoch, turn, output)?;
    told(learner, alloc, &left, &right)
}

/// How many windows are told after scans with these epochs, turns and outputs.
fn told_after(alloc: Global, scans: &[(i64, i64, i64)]) -> Result<u32, NoMemory> {
    let mut learner = Learner::new(alloc);
    let mut windows = 0;
    for (epoch, turn, output) in scans {
        windows = learn_one(&mut learner, alloc, *epoch, *turn, *output)?;
    }
    Ok(windows)
}

#[test]
fn what_is_not_expected_begins_again(rt: HostRuntime) -> Result<(), Fail> {
    for (scans, windows) in [
        // a whole rotation, from any turn on
        ([(9, 0, 0), (4, 0, 0), (4, 1, 0)], 320),
        ([(9, 0, 0), (4, 1, 0), (4, 0, 0)], 320),
        // a turn or an epoch that isn't expected
        ([(9, 0, 0), (4, 0, 0), (4, 0, 0)], 1),
        ([(9, 0, 0), (4, 0, 0), (5, 1, 0)], 1),
        // two results that differ, and what is no result
        ([(9, 0, 0), (4, 0, 0), (4, 1, 7)], 0),
        ([(9, 0, 0), (4, 0, 0), (4, 2, 0)], 0),
        // after it what was learned is gone
        ([(4, 0, 0), (4, 1, 7), (4, 1, 0)], 1),
        ([(4, 0, 0), (4, 2, 0), (4, 1, 0)], 1),
    ] {
        assert_eq!(rt; told_after(rt.alloc(), &scans)?, windows);
    }
    Ok(())
}

/// Whether this is the memory after the change of words 0 and 67.
fn is_memory(image: &Image) -> bool {
    let items = image.words.items();
    image.epoch == 4
        && image.turn == 0
        && image.text.len() == 60
        && items.len() == 68
        && items.first().copied() == Some(-9)
        && items.last().copied() == Some(7)
}

/// Whether the second window, with a change of the first one, completes the memory.
fn completes(learner: &mut Learner, alloc: Global) -> Result<bool, NoMemory> {
    let mut window = [65; 64];
    window[63] = 7;
    let last = packet_of(alloc, &[2, 4, 1, 60, 68], &window, &[2, 0, -9, 67, 7])?;
    match learner.learn(alloc, &last, &last)? {
        Progress::Ready(image) => Ok(is_memory(&image)),
        _ => Ok(false),
    }
}

#[test]
fn a_rotation_gives_the_memory_as_it_is_now(rt: HostRuntime) -> Result<(), Fail> {
    let mut learner = Learner::new(rt.alloc());
    assert_eq!(rt; learn_one(&mut learner, rt.alloc(), 4, 0, 0)?, 1);
    assert!(rt; completes(&mut learner, rt.alloc())? && learner.windows() == 0);
    Ok(())
}

/// A running result of the longest text and the most words, all of them 7.
fn longest(alloc: Global, turn: u16) -> Result<Packet, NoMemory> {
    packet_of(
        alloc,
        &[2, 0, i64::from(turn), 16_384, 4_096],
        &[7; 64],
        &[0],
    )
}

/// Whether this window is learned as the next one from turn 0 on.
fn goes_on(learner: &mut Learner, alloc: Global, turn: u16) -> Result<bool, NoMemory> {
    let packet = longest(alloc, turn)?;
    Ok(told(learner, alloc, &packet, &packet)? == u32::from(turn) + 1)
}

/// Whether the last window completes the memory.
fn ends(learner: &mut Learner, alloc: Global) -> Result<bool, NoMemory> {
    let packet = longest(alloc, 319)?;
    match learner.learn(alloc, &packet, &packet)? {
        Progress::Ready(image) => {
            let items = image.words.items();
            Ok(
                image.text.len() == 16_384
                    && items.len() == 4_096
                    && items.last().copied() == Some(7),
            )
        }
        _ => Ok(false),
    }
}

/// Whether the longest memory is learned window by window.
fn is_learned(alloc: Global) -> Result<bool, NoMemory> {
    let mut learner = Learner::new(alloc);
    learner.reserve(20_480)?;
    for turn in 0..319 {
        if !goes_on(&mut learner, alloc, turn)? {
            return Ok(false);
        }
    }
    ends(&mut learner, alloc)
}

#[test]
fn the_longest_memory_is_learned_in_320_windows(rt: HostRuntime) -> Result<(), Fail> {
    assert!(rt; is_learned(rt.alloc())?);
    Ok(())
}
