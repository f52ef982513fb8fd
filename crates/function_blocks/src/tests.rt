use crate::{
    BlockKind, Kind, Role, bounded, exact, field_at, field_count, input_named, output_named,
    quotient, remainder, step_block,
};

const SR: BlockKind = BlockKind::Sr;

const RS: BlockKind = BlockKind::Rs;

const CTU: BlockKind = BlockKind::Ctu;

const CTD: BlockKind = BlockKind::Ctd;

const TON: BlockKind = BlockKind::Ton;

const TOF: BlockKind = BlockKind::Tof;

const TP: BlockKind = BlockKind::Tp;

/// Of a block the place of a field, and its name, role and first value.
const FIELDS: [(BlockKind, usize, &[u8], Role, i64); 21] = [
    (BlockKind::FTrig, 0, b"CLK", Role::Input, 0),
    (BlockKind::FTrig, 2, b"M", Role::Hidden, 1),
    (SR, 0, b"S1", Role::Input, 0),
    (SR, 1, b"R", Role::Input, 0),
    (SR, 2, b"Q1", Role::Output, 0),
    (RS, 0, b"S", Role::Input, 0),
    (RS, 1, b"R1", Role::Input, 0),
    (RS, 2, b"Q1", Role::Output, 0),
    (CTU, 0, b"CU", Role::Input, 0),
    (CTU, 1, b"R", Role::Input, 0),
    (CTU, 2, b"PV", Role::Input, 0),
    (CTU, 3, b"Q", Role::Output, 0),
    (CTU, 4, b"CV", Role::Output, 0),
    (CTU, 5, b"M", Role::Hidden, 0),
    (CTD, 0, b"CD", Role::Input, 0),
    (CTD, 1, b"LD", Role::Input, 0),
    (CTD, 2, b"PV", Role::Input, 0),
    (CTD, 3, b"Q", Role::Output, 0),
    (CTD, 4, b"CV", Role::Output, 0),
    (CTD, 5, b"M", Role::Hidden, 0),
    (TP, 3, b"ET", Role::Output, 0),
];

#[test]
fn timers_at_100_milliseconds_a_call(rt: HostRuntime) {
    for (kind, pt, inputs, answers) in [
        (
            TON,
            250,
            [1, 1, 1, 1, 0],
            [(0, 0), (100, 0), (200, 0), (250, 1), (0, 0)],
        ),
        (
            TOF,
            250,
            [1, 0, 0, 0, 0],
            [(0, 1), (0, 1), (100, 1), (200, 1), (250, 0)],
        ),
        (
            TP,
            250,
            [1, 0, 0, 0, 0],
            [(0, 1), (100, 1), (200, 1), (250, 0), (0, 0)],
        ),
        (
            TP,
            250,
            [1, 1, 1, 1, 1],
            [(0, 1), (100, 1), (200, 1), (250, 0), (250, 0)],
        ),
        (
            TON,
            -5,
            [1, 1, 0, 0, 0],
            [(0, 1), (0, 1), (0, 0), (0, 0), (0, 0)],
        ),
        (
            TOF,
            250,
            [0, 0, 0, 0, 0],
            [(0, 0), (0, 0), (0, 0), (0, 0), (0, 0)],
        ),
    ] {
        let mut fields = [0i64, pt, 0, 0, 0];
        for call in 0..5 {
            fields[0] = inputs[call];
            assert_eq!(rt; field_count(kind), 5);
            step_block(kind, &mut fields, 100);
            assert_eq!(rt;
                (fields[3], fields[2]),
                answers[call],
                "{kind:?} at call {call}"
            );
        }
    }
}

#[test]
fn counters_call_by_call(rt: HostRuntime) {
    let mut up = [0i64, 0, 2, 0, 0, 0];
    for (input, count, output) in [(1, 1, 0), (0, 1, 0), (1, 2, 1)] {
        up[0] = input;
        step_block(CTU, &mut up, 100);
        assert_eq!(rt; (up[4], up[3]), (count, output));
    }
    let mut down = [0i64, 1, 1, 0, 0, 0];
    for (input, load, count, output) in [(0, 1, 1, 0), (1, 0, 0, 1), (1, 0, 0, 1)] {
        down[0] = input;
        down[1] = load;
        step_block(CTD, &mut down, 100);
        assert_eq!(rt; (down[4], down[3]), (count, output));
    }
    for (kind, before, after) in [
        (CTU, [1, 1, 2, 0, 5, 0], [1, 1, 2, 0, 0, 1]),
        (CTU, [1, 0, 2, 0, 32_767, 0], [1, 0, 2, 1, 32_767, 1]),
        (CTD, [1, 1, 2, 0, 5, 0], [1, 1, 2, 0, 2, 1]),
        (CTD, [1, 0, 2, 0, -32_768, 0], [1, 0, 2, 1, -32_768, 1]),
    ] {
        let mut fields = before;
        assert_eq!(rt; field_count(kind), 6);
        step_block(kind, &mut fields, 100);
        assert_eq!(rt; fields.as_slice(), after.as_slice(), "{kind:?}");
    }
}

#[test]
fn triggers_and_latches(rt: HostRuntime) {
    for (kind, before, after) in [
        (BlockKind::FTrig, [0, 0, 1], [0, 0, 1]),
        (BlockKind::FTrig, [0, 0, 0], [0, 1, 1]),
        (BlockKind::RTrig, [1, 0, 0], [1, 1, 1]),
        (BlockKind::RTrig, [1, 1, 1], [1, 0, 1]),
        (SR, [0, 0, 7], [0, 0, 1]),
        (SR, [1, 0, 0], [1, 0, 1]),
        (SR, [0, 1, 1], [0, 1, 0]),
        (SR, [1, 1, 0], [1, 1, 1]),
        (RS, [0, 0, 1], [0, 0, 1]),
        (RS, [1, 0, 0], [1, 0, 1]),
        (RS, [0, 1, 1], [0, 1, 0]),
        (RS, [1, 1, 1], [1, 1, 0]),
    ] {
        let mut fields = before;
        assert_eq!(rt; field_count(kind), 3);
        step_block(kind, &mut fields, 100);
        assert_eq!(rt; fields.as_slice(), after.as_slice(), "{kind:?}");
    }
}

#[test]
fn fields_by_place_and_by_name(rt: HostRuntime) {
    for (kind, place, name, role, first) in FIELDS {
        match field_at(kind, place) {
            Some(field) => {
                assert_eq!(rt; (field.name, field.role, field.first), (name, role, first));
            }
            None => assert!(rt; false, "{kind:?} has no field {place}"),
        }
        assert!(rt; field_at(kind, field_count(kind)).is_none());
    }
    assert_eq!(rt; input_named(TON, b"PT"), Some(Kind::Dint));
    assert_eq!(rt; input_named(TON, b"ET"), None);
    assert_eq!(rt; output_named(CTU, b"CV"), Some(Kind::Int));
    assert_eq!(rt; output_named(CTU, b"M"), None);
}

#[test]
fn numbers_clamped_with_a_flag(rt: HostRuntime) {
    for (computed, value, flag) in [
        (exact(Kind::Int, 32_768), 32_767, true),
        (exact(Kind::Bool, 7), 1, true),
        (quotient(Kind::Int, -7, 2), -3, false),
        (quotient(Kind::Int, 7, -2), -3, false),
        (quotient(Kind::Int, -32_768, -1), 32_767, true),
        (quotient(Kind::Dint, 7, 0), 0, true),
        (remainder(Kind::Int, -32_768, -1), 0, false),
        (remainder(Kind::Dint, -7, 2), -1, false),
        (remainder(Kind::Int, 7, -3), 1, false),
        (bounded(-1, 3, 4), 3, true),
    ] {
        assert_eq!(rt; (computed.value, computed.flag), (value, flag));
    }
}
