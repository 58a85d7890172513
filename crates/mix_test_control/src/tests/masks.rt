//! Who is told of an event.
use crate::tests::fanouts::{ONE, TRANSITIONS, TWO, come, expect, expect_cut, tell_duration, two};
use mix_base::ConnId;

#[test]
fn an_event_without_the_bit_is_not_told(rt: HostRuntime) {
    let alloc = rt.alloc();
    let mut fanout = two(&rt, alloc);
    come(&rt, alloc, &mut fanout, TWO, 4);
    come(&rt, alloc, &mut fanout, ConnId(3), 0);
    tell_duration(&rt, alloc, &mut fanout, 300, None);
    expect(&rt, alloc, &fanout, ONE, &[300]);
    expect(&rt, alloc, &fanout, TWO, &[]);
    expect(&rt, alloc, &fanout, ConnId(3), &[]);
    drop(fanout);
}

#[test]
fn an_event_waits_for_who_caused_it_unless_it_is_left_out(rt: HostRuntime) {
    let alloc = rt.alloc();
    let mut fanout = two(&rt, alloc);
    tell_duration(&rt, alloc, &mut fanout, 300, None);
    tell_duration(&rt, alloc, &mut fanout, 400, Some(ONE));
    expect(&rt, alloc, &fanout, ONE, &[300]);
    expect(&rt, alloc, &fanout, TWO, &[300, 400]);
    drop(fanout);
}

#[test]
fn a_full_connection_is_cut_and_told_nothing_more(rt: HostRuntime) {
    let alloc = rt.alloc();
    let mut fanout = two(&rt, alloc);
    tell_duration(&rt, alloc, &mut fanout, 100, None);
    tell_duration(&rt, alloc, &mut fanout, 200, None);
    fanout.cut_full(None);
    expect_cut(&rt, alloc, &fanout, ONE, false);
    expect_cut(&rt, alloc, &fanout, TWO, false);
    tell_duration(&rt, alloc, &mut fanout, 300, None);
    fanout.cut_full(Some(ONE));
    expect_cut(&rt, alloc, &fanout, ONE, false);
    expect_cut(&rt, alloc, &fanout, TWO, true);
    tell_duration(&rt, alloc, &mut fanout, 400, None);
    expect(&rt, alloc, &fanout, ONE, &[100, 200, 300, 400]);
    expect(&rt, alloc, &fanout, TWO, &[100, 200, 300]);
    expect_cut(&rt, alloc, &fanout, TWO, true);
    drop(fanout);
}

#[test]
fn who_leaves_and_comes_again_is_told_nothing_old(rt: HostRuntime) {
    let alloc = rt.alloc();
    let mut fanout = two(&rt, alloc);
    tell_duration(&rt, alloc, &mut fanout, 300, None);
    if fanout.has(ONE) {
        fanout.leave(ONE);
    }
    assert!(rt; !fanout.has(ONE));
    come(&rt, alloc, &mut fanout, ONE, TRANSITIONS);
    tell_duration(&rt, alloc, &mut fanout, 400, None);
    expect(&rt, alloc, &fanout, ONE, &[400]);
    expect(&rt, alloc, &fanout, TWO, &[300, 400]);
    drop(fanout);
}
