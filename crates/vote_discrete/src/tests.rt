use super::*;

#[test]
fn two_of_three_decide_and_the_others_dissent(rt: HostRuntime) {
    let (on, off) = (Some(true), Some(false));
    let rows = [
        ([on, on, off], true, [false, false, true]),
        ([off, on, off], false, [false, true, false]),
        ([on, None, off], false, [true, true, false]),
        ([None, on, on], true, [true, false, false]),
        ([None, None, on], true, [true, true, false]),
        ([None, None, None], false, [true, true, true]),
    ];
    for ([a, b, c], want, dissenting) in rows {
        let readings = Triple { a, b, c };
        assert_eq!(rt; vote(readings), want, "{readings:?}");
        let legs = dissent(readings);
        assert_eq!(rt; [legs.a, legs.b, legs.c], dissenting, "{readings:?}");
    }
}

#[test]
fn a_word_is_true_unless_it_is_0(rt: HostRuntime) {
    let said = truths(Triple {
        a: Some(1),
        b: None,
        c: Some(0),
    });
    assert_eq!(rt; [said.a, said.b, said.c], [Some(true), None, Some(false)]);
}
