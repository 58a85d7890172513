//! Turns of one thread.
ghost use Rattle.std.specs.Prelude.{◌≡◌};
ghost use Rattle.mix_turn.specs.Known.{IsOf};

use crate::tests::numbers::Numbers;
use crate::tests::passes::{is_done, is_next, open_turnstile};
use mix_turn::{Miss, Pass, Turn, Turnstile};
use std::process::Abort;
use std::sync::Wait;

/// A turn is done, and answered so.
fn expect_turn<R: Wait + Abort>(
    rt: &R,
    turnstile: &Turnstile<Numbers>,
    pass: &mut Pass<Numbers>,
    wanted: u64,
)
    requires { IsOf turnstile.now pass.old }
    ensures of { IsOf turnstile.now pass.new }
    ensures parts { pass.new.parts ≡ pass.old.parts }
{
    let turn = turnstile.with_turn(rt, pass, 10);
    assert!(rt; is_done(&turn, wanted));
}

/// A try is not busy, and its turn is done and answered so.
fn expect_try(
    rt: &impl Abort,
    turnstile: &Turnstile<Numbers>,
    pass: &mut Pass<Numbers>,
    wanted: u64,
)
    requires { IsOf turnstile.now pass.old }
    ensures of { IsOf turnstile.now pass.new }
    ensures parts { pass.new.parts ≡ pass.old.parts }
{
    match turnstile.try_turn(pass, 20) {
        Ok(turn) => assert!(rt; is_done(&turn, wanted)),
        Err(_) => panic!(rt; "busy"),
    }
}

#[test]
fn one_thread_alone_is_never_busy(rt: HostRuntime) {
    let (turnstile, mut first) = open_turnstile(&rt, rt.alloc(), 0);
    let Ok(mut second) = turnstile.split(&mut first) else {
        panic!(rt; "no number for a second pass")
    };
    expect_turn(&rt, &turnstile, &mut first, 0);
    expect_try(&rt, &turnstile, &mut second, 1);
    expect_try(&rt, &turnstile, &mut first, 2);
    assert!(rt; is_next(first.next(), 0, 2));
    assert!(rt; is_next(second.next(), 1, 1));
    drop(second);
    drop(first);
    drop(turnstile);
}

/// A turn is missed: the history is full at so many turns.
fn expect_miss<R: Wait + Abort>(
    rt: &R,
    turnstile: &Turnstile<Numbers>,
    pass: &mut Pass<Numbers>,
    wanted: u64,
)
    requires { IsOf turnstile.now pass.old }
    ensures of { IsOf turnstile.now pass.new }
    ensures parts { pass.new.parts ≡ pass.old.parts }
{
    match turnstile.with_turn(rt, pass, 7) {
        Turn::Missed(Miss::Full { turns, bytes }) => assert!(rt; turns == wanted && bytes == 0),
        _ => panic!(rt; "a turn isn't missed"),
    }
}

#[test]
fn every_third_turn_is_missed_and_uses_no_number(rt: HostRuntime) {
    let (turnstile, mut pass) = open_turnstile(&rt, rt.alloc(), 3);
    expect_turn(&rt, &turnstile, &mut pass, 0);
    expect_turn(&rt, &turnstile, &mut pass, 1);
    expect_miss(&rt, &turnstile, &mut pass, 2);
    expect_turn(&rt, &turnstile, &mut pass, 2);
    expect_turn(&rt, &turnstile, &mut pass, 3);
    expect_miss(&rt, &turnstile, &mut pass, 4);
    assert!(rt; is_next(pass.next(), 0, 4));
    let value = turnstile.close(pass);
    assert!(rt; matches!(value.in_order(0), Some(4)));
    assert!(rt; value.full);
    drop(value);
}
