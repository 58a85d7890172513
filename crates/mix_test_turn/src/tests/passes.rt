//! Turnstiles round numbers, their passes, and turns that are taken.
ghost use Rattle.std.specs.Prelude.{◌≡◌, Ok};
ghost use Rattle.mix_turn.specs.Known.{IsOf};
ghost use Rattle.mix_turn.specs.Parts.{all_parts};

use crate::tests::gates::Gate;
use crate::tests::numbers::Numbers;
use mix_base::PassNo;
use mix_turn::{Pass, Turn, Turnstile};
use std::alloc::Global;
use std::process::Abort;
use std::sync::{Arc, Wait};

/// A value that comes wherever there is memory.
pub fn have<T, E: Drop>(rt: &impl Abort, made: Result<T, E>) -> T
    ensures { made ≡ Ok result }
{
    match made {
        Ok(value) => value,
        Err(_) => panic!(rt; "a value isn't there"),
    }
}

/// A turnstile whose gate is open, and which refuses each turn of this number where it isn't 0.
pub fn open_turnstile(
    rt: &impl Abort,
    alloc: Global,
    every: u64,
) -> (Turnstile<Numbers>, Pass<Numbers>)
    ensures of { IsOf result.0 result.1 }
    ensures all { result.1.parts ≡ all_parts }
{
    let gate = have(rt, Arc::new(alloc, Gate::new(1)));
    have(rt, Turnstile::new(alloc, Numbers::new(alloc, every, gate)))
}

/// Takes so many turns, and says how many were done.
pub fn take<R: Wait>(
    rt: &R,
    turnstile: &Turnstile<Numbers>,
    pass: &mut Pass<Numbers>,
    count: u64,
) -> u64
    requires { IsOf turnstile.now pass.old }
    ensures of { IsOf turnstile.now pass.new }
    ensures parts { pass.new.parts ≡ pass.old.parts }
{
    let mut done = 0u64;
    for i in 0..count {
        if let Turn::Done(_) = turnstile.with_turn(rt, pass, i) {
            done = done.wrapping_add(1);
        }
    }
    done
}

/// Whether the turn was done, and answered so.
pub fn is_done(turn: &Turn<u64>, wanted: u64) -> bool {
    match turn {
        Turn::Done(place) => *place == wanted,
        Turn::Missed(_) => false,
    }
}

/// Whether the next number of a pass is this.
pub fn is_next(next: PassNo, pass: u32, number: u64) -> bool {
    next.pass == pass && next.number == number
}
