use crate::{
    Leg, Name, Side, Text, Touched, Triple, Words, push_bytes, push_number, push_word, read_number,
};
use std::test::Fail;

#[test]
fn legs_stand_in_a_ring(rt: HostRuntime) {
    let names = Triple {
        a: 'a',
        b: 'b',
        c: 'c',
    };
    for (leg, left, name, right) in [
        (Leg::A, Leg::C, 'a', Leg::B),
        (Leg::B, Leg::A, 'b', Leg::C),
        (Leg::C, Leg::B, 'c', Leg::A),
    ] {
        assert_eq!(rt; leg.left(), left);
        assert_eq!(rt; *names.at(leg), name);
        assert_eq!(rt; leg.right(), right);
        assert_eq!(rt; leg.neighbour(Side::Left), left);
        assert_eq!(rt; leg.neighbour(Side::Right), right);
        let parts = Triple::placed(leg, leg, left, right);
        assert_eq!(rt; (parts.a, parts.b, parts.c), (Leg::A, Leg::B, Leg::C));
    }
    assert_eq!(rt; Side::Left.opposite(), Side::Right);
    assert_eq!(rt; Side::Right.opposite(), Side::Left);
}

#[test]
fn a_name_is_read_in_capitals(rt: HostRuntime) -> Result<(), Fail> {
    for (text, capitals) in [
        ("x", "X"),
        ("_9", "_9"),
        ("Tank_1_Level", "TANK_1_LEVEL"),
        (
            "abcdefghijklmnopqrstuvwxyz_01234",
            "ABCDEFGHIJKLMNOPQRSTUVWXYZ_01234",
        ),
    ] {
        let name = Name::read(text.as_bytes()).ok_or(text)?;
        assert_eq!(rt; name.bytes(), capitals.as_bytes(), "{text}");
    }
    Ok(())
}

#[test]
fn what_is_no_name_is_refused(rt: HostRuntime) {
    for text in [
        "",
        "9x",
        "a-b",
        "a b",
        "ü",
        "abcdefghijklmnopqrstuvwxyz_012345",
    ] {
        assert_eq!(rt; Name::read(text.as_bytes()), None, "{text}");
    }
}

#[test]
fn a_number_has_up_to_18_digits_and_no_plus(rt: HostRuntime) {
    for (text, number) in [
        ("0", Some(0)),
        ("-0", Some(0)),
        ("007", Some(7)),
        ("-20", Some(-20)),
        ("999999999999999999", Some(999_999_999_999_999_999)),
        ("-999999999999999999", Some(-999_999_999_999_999_999)),
        ("0000000000000000007", None),
        ("", None),
        ("-", None),
        ("--5", None),
        ("+5", None),
        ("5.0", None),
        (" 5", None),
    ] {
        assert_eq!(rt; read_number(text.as_bytes()), number, "{text}");
    }
}

#[test]
fn a_number_is_written_in_its_shortest_text(rt: HostRuntime) -> Result<(), Fail> {
    for (value, written) in [
        (0, "at 0"),
        (-20, "at -20"),
        (i64::MAX, "at 9223372036854775807"),
        (i64::MIN, "at -9223372036854775808"),
    ] {
        let mut text = Text::new(rt.alloc());
        push_bytes(&mut text, b"at ")?;
        push_number(&mut text, value)?;
        assert_eq!(rt; text.bytes(), written.as_bytes(), "{value}");
    }
    Ok(())
}

#[test]
fn a_text_is_copied_and_cleared(rt: HostRuntime) -> Result<(), Fail> {
    let mut text = Text::new(rt.alloc());
    text.reserve(3)?;
    push_bytes(&mut text, b"abcd")?;
    let copy = text.copy(rt.alloc())?;
    text.clear();
    assert_eq!(rt; text.len(), 0);
    assert_eq!(rt; copy.bytes(), b"abcd".as_slice());
    Ok(())
}

#[test]
fn words_are_added_set_copied_and_cleared(rt: HostRuntime) -> Result<(), Fail> {
    let mut words = Words::new(rt.alloc());
    words.reserve(4)?;
    words.add(3);
    words.extend(&[-4, 6]);
    push_word(&mut words, 5)?;
    words.set(1, 9);
    words.items_mut()[3] = i64::MIN;
    let copy = words.copy(rt.alloc())?;
    words.clear();
    assert_eq!(rt; words.len(), 0);
    assert_eq!(rt; copy.items(), [3, 9, 6, i64::MIN].as_slice());
    Ok(())
}

#[test]
fn the_first_store_to_an_address_counts(rt: HostRuntime) -> Result<(), Fail> {
    let mut touched = Touched::new(rt.alloc(), 3)?;
    touched.note(2, 5);
    touched.note(0, -1);
    touched.note(2, 8);
    assert_eq!(rt; touched.pairs(), [(2, 5), (0, -1)].as_slice());
    for (address, before) in [(0, Some(-1)), (1, None), (2, Some(5)), (3, None)] {
        assert_eq!(rt; touched.before(address), before, "{address}");
    }
    touched.clear();
    assert_eq!(rt; touched.before(2), None);
    touched.note(2, 8);
    assert_eq!(rt; touched.pairs(), [(2, 8)].as_slice());
    Ok(())
}
