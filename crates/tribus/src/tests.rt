// What no clause says: that packets and notes come, through threads of their own.

ghost use Rattle.std.specs.Prelude.{◌≡◌};

use crate::{NoteIn, NoteLink, NoteOut, Post, Told, open_bus};
use fault_history::Note;
use leg_packet::Packet;
use std::alloc::Global;
use std::sync::Wait;
use std::test::Fail;
use std::thread;
use tri_base::{NoMemory, Side, Triple, Words, push_word};

const COUNT: i64 = 1000;

/// A packet of one word.
fn packet_of(alloc: Global, number: i64) -> Result<Packet, NoMemory> {
    let mut words = Words::new(alloc);
    push_word(&mut words, number)?;
    let mut packet = Packet::blank(alloc)?;
    packet.write_words(&words)?;
    Ok(packet)
}

/// Puts so many packets on the right, each with its number.
fn put_all<R: Wait>(rt: &R, alloc: Global, mut post: Post) -> (Post, bool)
    ensures { result.0.place ≡ post.place }
{
    for number in 0..COUNT {
        match packet_of(alloc, number) {
            Ok(packet) => post.put(rt, Side::Right, packet),
            Err(_) => return (post, false),
        }
    }
    (post, true)
}

/// Takes so many packets from the left, and tells whether each has its number.
fn take_all<R: Wait>(rt: &R, mut post: Post) -> (Post, bool)
    ensures { result.0.place ≡ post.place }
{
    let mut in_order = true;
    for number in 0..COUNT {
        let packet = post.take(rt, Side::Left);
        if packet.words() != [number].as_slice() {
            in_order = false;
        }
    }
    (post, in_order)
}

#[test]
fn a_thousand_packets_go_over_one_link_in_order(rt: HostRuntime) -> Result<(), Fail> {
    let (bus, posts) = open_bus(rt.alloc())?;
    let alloc: Global = rt.alloc();
    let Triple { a, b, c } = posts;
    let (putting, taking) = thread::join(
        &rt,
        || -> (Post, bool)
            ensures { result.0.place ≡ a.place }
        { put_all(&rt, alloc, a) },
        || -> (Post, bool)
            ensures { result.0.place ≡ b.place }
        { take_all(&rt, b) },
    );
    let (a, all_put) = putting;
    let (b, in_order) = taking;
    assert!(rt; all_put);
    assert!(rt; in_order);
    let _settled = bus.settle(&rt, Triple { a, b, c });
    Ok(())
}

/// Tells so many notes, each with its number as the scan time, and then that there are no more.
fn tell_all<R: Wait>(rt: &R, alloc: Global, mut told: NoteIn) -> NoteIn
    ensures { result.link ≡ told.link }
{
    for number in 0..COUNT {
        let mut note = Note::blank(alloc);
        note.voted.dt = number;
        told.tell(rt, Told::Scan(note));
    }
    told.tell(rt, Told::Over);
    told
}

/// Hears so many notes and that there are no more, and tells whether each has its number.
fn hear_all<R: Wait>(rt: &R, mut heard: NoteOut) -> (NoteOut, bool)
    ensures { result.0.link ≡ heard.link }
{
    let mut in_order = true;
    for number in 0..COUNT {
        match heard.hear(rt) {
            Told::Scan(note) => in_order = in_order && note.voted.dt == number,
            Told::Over => in_order = false,
        }
    }
    let is_over = matches!(&heard.hear(rt), Told::Over);
    (heard, in_order && is_over)
}

#[test]
fn a_thousand_notes_go_over_one_note_link_in_order(rt: HostRuntime) -> Result<(), Fail> {
    let (link, told, heard) = NoteLink::make(rt.alloc())?;
    let alloc: Global = rt.alloc();
    let (told, hearing) = thread::join(
        &rt,
        || -> NoteIn
            ensures { result.link ≡ told.link }
        { tell_all(&rt, alloc, told) },
        || -> (NoteOut, bool)
            ensures { result.0.link ≡ heard.link }
        { hear_all(&rt, heard) },
    );
    let (heard, in_order) = hearing;
    assert!(rt; in_order);
    let _settled = link.settle(&rt, told, heard);
    Ok(())
}

#[test]
fn a_packet_that_nobody_took_is_settled(rt: HostRuntime) -> Result<(), Fail> {
    let packet = packet_of(rt.alloc(), 7)?;
    let (bus, posts) = open_bus(rt.alloc())?;
    let Triple { a, mut b, c } = posts;
    b.put(&rt, Side::Left, packet);
    let _settled = bus.settle(&rt, Triple { a, b, c });
    Ok(())
}

#[test]
fn four_notes_that_nobody_heard_are_settled(rt: HostRuntime) -> Result<(), Fail> {
    let (link, mut told, heard) = NoteLink::make(rt.alloc())?;
    told.tell(&rt, Told::Scan(Note::blank(rt.alloc())));
    told.tell(&rt, Told::Scan(Note::blank(rt.alloc())));
    told.tell(&rt, Told::Scan(Note::blank(rt.alloc())));
    told.tell(&rt, Told::Over);
    let _settled = link.settle(&rt, told, heard);
    Ok(())
}
