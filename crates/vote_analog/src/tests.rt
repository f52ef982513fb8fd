use super::*;

#[test]
fn a_reading_far_off_is_outvoted_and_two_give_the_floor_of_their_mean(rt: HostRuntime) {
    let rows = [
        (
            [Some(100), Some(104), Some(4000)],
            16,
            104,
            [false, false, true],
        ),
        ([Some(-5), Some(-2), None], 4, -4, [false, false, true]),
        ([Some(-7), None, Some(0)], 3, -4, [false, true, true]),
        (
            [None, Some(32_767), Some(-32_768)],
            32_767,
            -1,
            [true, true, false],
        ),
        ([Some(-3), Some(-3), Some(9)], 0, -3, [false, false, true]),
        ([None, Some(9), None], 0, 9, [true, false, true]),
        ([None, None, None], 65_535, 0, [true, true, true]),
    ];
    for ([a, b, c], tolerance, want, deviating) in rows {
        let readings = Triple { a, b, c };
        assert_eq!(rt; mid(readings), want, "{readings:?}");
        let legs = deviates(readings, tolerance);
        assert_eq!(rt; [legs.a, legs.b, legs.c], deviating, "{readings:?}");
    }
}
