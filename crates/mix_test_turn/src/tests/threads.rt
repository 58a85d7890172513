//! Turns of two threads.
ghost use Rattle.std.specs.Prelude.{◌≡◌, ◌+◌, IfErr};
ghost use Rattle.mix_turn.specs.Known.{IsOf};

use crate::tests::gates::Gate;
use crate::tests::numbers::Numbers;
use crate::tests::passes::{have, open_turnstile, take};
use mix_turn::{Busy, Pass, Turn, Turnstile};
use std::process::Abort;
use std::sync::{Arc, Wait};
use std::thread::join_mut;

/// Of the passes 0 and 1 a thousand entries each.
fn expect_thousands(rt: &impl Abort, value: &Numbers) {
    assert!(rt; value.all.len() == 2000);
    assert!(rt; matches!(value.in_order(0), Some(1000)));
    assert!(rt; matches!(value.in_order(1), Some(1000)));
}

#[test]
fn two_threads_take_a_thousand_turns_each(rt: HostRuntime) {
    let (turnstile, mut first) = open_turnstile(&rt, rt.alloc(), 0);
    let Ok(mut second) = turnstile.split(&mut first) else {
        panic!(rt; "no number for a second pass")
    };
    let shared = &turnstile;
    let done = join_mut(
        &rt,
        &mut || take(&rt, shared, &mut first, 1000),
        &mut || take(&rt, shared, &mut second, 1000),
    );
    assert!(rt; done.0 == 1000 && done.1 == 1000);
    turnstile.join(&mut first, second);
    let value = turnstile.close(first);
    expect_thousands(&rt, &value);
    drop(value);
}

/// A try once the other is inside, or once it was waited for long enough; then the gate is opened.
fn try_beside(
    turnstile: &Turnstile<Numbers>,
    gate: &Gate,
    pass: &mut Pass<Numbers>,
) -> Result<Turn<u64>, Busy>
    requires { IsOf turnstile.now pass.old }
    ensures of { IsOf turnstile.now pass.new }
    ensures parts { pass.new.parts ≡ pass.old.parts }
    ensures once { pass.new.tally.looks ≡ pass.old.tally.looks + 1 }
    ensures told { IfErr result (λ busy. busy.serving ≡ pass.new.tally.serving) }
{
    gate.look_inside();
    let reply = turnstile.try_turn(pass, 20);
    gate.open();
    reply
}

fn turn_beside<R: Wait>(
    rt: &R,
    turnstile: &Turnstile<Numbers>,
    pass: &mut Pass<Numbers>,
) -> Turn<u64>
    requires { IsOf turnstile.now pass.old }
    ensures of { IsOf turnstile.now pass.new }
    ensures parts { pass.new.parts ≡ pass.old.parts }
{
    turnstile.with_turn(rt, pass, 10)
}

/// The try was busy just where the gate was opened in time, since it then came during the turn: it
/// found ticket 1 and looked at 0, and one entry is there.
fn expect_busy(rt: &impl Abort, tried: &Result<Turn<u64>, Busy>, value: &Numbers) {
    match tried {
        Ok(_) => assert!(rt; !value.in_time),
        Err(Busy { ticket, serving }) => {
            assert!(rt; value.in_time);
            assert!(rt; *ticket == 1 && *serving == 0);
            assert!(rt; value.all.len() == 1);
        }
    }
}

#[test]
fn a_try_during_a_turn_is_busy(rt: HostRuntime) {
    let gate = have(&rt, Arc::new(rt.alloc(), Gate::new(0)));
    let value = Numbers::new(rt.alloc(), 0, have(&rt, Arc::try_clone(&gate)));
    let (turnstile, mut first) = have(&rt, Turnstile::new(rt.alloc(), value));
    let Ok(mut second) = turnstile.split(&mut first) else {
        panic!(rt; "no number for a second pass")
    };
    let shared = &turnstile;
    let door: &Gate = &gate;
    let (_, tried) = join_mut(
        &rt,
        &mut || turn_beside(&rt, shared, &mut first),
        &mut || try_beside(shared, door, &mut second),
    );
    turnstile.join(&mut first, second);
    let value = turnstile.close(first);
    expect_busy(&rt, &tried, &value);
    drop(value);
    drop(tried);
    drop(gate);
}
