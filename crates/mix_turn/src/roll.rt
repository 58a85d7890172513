//! The plainest value that a turnstile may guard: a roll of numbers.
ghost use Rattle.std.specs.Prelude.{◌≡◌};
ghost use Rattle.mix_turn.specs.Roll.{roll_says};

use crate::entered::Entered;
use crate::turn::{Miss, Turn};
use crate::turned::Turned;
use mix_base::PassNo;
use std::alloc::Global;

/// Numbers, each with who entered it. It shows how `Turned` is met.
#[derive(Drop)]
pub struct Roll {
    pub entries: Vec<Entered<u64>>,
    pub missed: u64,
    /// How many entries it takes.
    pub most: u64,
    pub full: bool,
}

impl Roll {
    ghost use Rattle.std.specs.Prelude.{[], false};

    pub fn new(alloc: Global, most: u64) -> Roll
        ensures entries { result.entries.items ≡ [] }
        ensures missed { result.missed ≡ 0 }
        ensures most { result.most ≡ most }
        ensures full { result.full ≡ false }
    {
        Roll {
            entries: Vec::new(alloc),
            missed: 0,
            most,
            full: false,
        }
    }
}

impl Turned for Roll {
    type Entry = u64;

    type Answer = u64;

    type Start = u64;

    ghost journal = { λ roll. roll.entries.items };

    ghost misses = { λ roll. roll.missed };

    ghost start = { λ roll. roll.most };

    ghost full = { λ roll. roll.full };

    ghost answers = { λ most found entry reply. roll_says most found reply };

    fn turn(&mut self, from: PassNo, entry: u64) -> Turn<u64> {
        let turns = self.entries.len() as u64;
        if turns >= self.most {
            self.missed += 1;
            self.full = true;
            return Turn::Missed(Miss::Full { turns, bytes: 0 });
        }
        match self.entries.push(Entered { from, entry }) {
            Ok(()) => Turn::Done(turns),
            Err(_) => {
                self.missed += 1;
                Turn::Missed(Miss::NoMemory)
            }
        }
    }
}
