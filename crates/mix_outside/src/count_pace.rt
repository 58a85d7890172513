//! A pace that gives so many ticks.
ghost use Rattle.std.specs.Prelude.{◌≡◌, ◌+◌, ◌||◌};
ghost use Rattle.mix_outside.specs.Paces.{ticks_in, is_last};

use crate::{Beat, Pace};
use std::marker::Model;

/// A pace that gives so many ticks at once, and then its end. Contracts see the ticks that it gave,
/// the ticks that it gives, and whether it ended.
#[derive(Drop)]
pub struct CountPace {
    ticks: u32,
    most: u32,
    ended: bool,
}

impl Model for CountPace {
    ghost use Rattle.std.specs.Prelude.{◌≤◌};
    ghost use Rattle.mix_outside.specs.MemoryDoors.{PaceState};

    ghost Value = { PaceState };

    ghost view = { λ pace. record {
      ticks = pace.ticks;
      most = pace.most;
      ended = pace.ended;
    } };

    ghost invariant = { λ pace. pace.ticks ≤ pace.most };
}

impl CountPace {
    ghost use Rattle.mix_outside.specs.MemoryDoors.{new_pace};

    pub fn new(ticks: u32) -> CountPace
        ensures value { result ≡ new_pace ticks }
    {
        CountPace {
            ticks: 0,
            most: ticks,
            ended: false,
        }
    }
}

impl Pace for CountPace {
    ghost use Rattle.mix_outside.specs.MemoryDoors.{beat_of, after_beat};

    ghost Tells = { Unit {0} };

    ghost ticks = { λ pace. pace.ticks };

    ghost ended = { λ pace. pace.ended };

    fn wait(&mut self) -> Beat
        ensures value { result ≡ beat_of self.old }
        ensures state { self.new ≡ after_beat result self.old }
        ensures ticks { self.new.ticks ≡ self.old.ticks + ticks_in result }
        ensures ended { self.new.ended ≡ (self.old.ended || is_last result) }
    {
        if self.ticks < self.most {
            self.ticks += 1;
            return Beat::Tick;
        }
        self.ended = true;
        Beat::End
    }
}
