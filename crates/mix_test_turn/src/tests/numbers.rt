//! A value that a turnstile guards: a list of numbers.
ghost use Rattle.std.specs.Prelude.{◌≡◌, [], length};
ghost use Rattle.mix_turn.specs.Turns.{IfDone};

use crate::tests::gates::Gate;
use mix_base::PassNo;
use mix_turn::{Entered, Miss, Turn, Turned};
use std::alloc::Global;
use std::sync::Arc;

/// A value whose journal is a list of numbers, and whose answer is the place in it. Where `every` is
/// not 0, it refuses each turn of that number as full.
#[derive(Drop)]
pub struct Numbers {
    every: u64,
    pub all: Vec<Entered<u64>>,
    missed: u64,
    pub full: bool,
    gate: Arc<Gate, Global>,
    pub in_time: bool,
}

impl Numbers {
    pub fn new(alloc: Global, every: u64, gate: Arc<Gate, Global>) -> Numbers
        ensures all { result.all.items ≡ [] }
        ensures missed { result.missed ≡ 0 }
    {
        Numbers {
            every,
            all: Vec::new(alloc),
            missed: 0,
            full: false,
            gate,
            in_time: true,
        }
    }

    /// How many entries one pass has, if they are numbered from 0 in order.
    pub fn in_order(&self, pass: u32) -> Option<u64> {
        let mut next = 0u64;
        for entered in self.all.as_slice() {
            if entered.from.pass == pass {
                if entered.from.number != next {
                    return None;
                }
                next = next.wrapping_add(1);
            }
        }
        Some(next)
    }
}

impl Turned for Numbers {
    type Entry = u64;

    type Answer = u64;

    type Start = u64;

    ghost journal = { λ n. n.all.items };

    ghost misses = { λ n. n.missed };

    ghost start = { λ n. n.every };

    ghost full = { λ n. n.full };

    ghost answers = { λ every found entry reply. IfDone reply (λ place. place ≡ length found) };

    fn turn(&mut self, from: PassNo, entry: u64) -> Turn<u64> {
        self.in_time = self.gate.pass();
        let turns = self.all.len() as u64;
        if self.every > 0 && (turns + self.missed) % self.every == self.every - 1 {
            self.missed += 1;
            self.full = true;
            return Turn::Missed(Miss::Full { turns, bytes: 0 });
        }
        match self.all.push(Entered { from, entry }) {
            Ok(()) => Turn::Done(turns),
            Err(_) => {
                self.missed += 1;
                Turn::Missed(Miss::NoMemory)
            }
        }
    }
}
