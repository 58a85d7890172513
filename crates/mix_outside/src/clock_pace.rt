//! A pace by the system's clock. Trusted edge: no contract says when a tick comes.
ghost use Rattle.std.specs.Prelude.{◌≡◌, ◌<◌, ◌+◌, ◌||◌, false, IfSome};
ghost use Rattle.mix_outside.specs.Paces.{ticks_in, is_last};

use crate::{Beat, Pace};
use mix_base::Rate;
use std::time::{Clock, Duration};

/// A pace of so many ticks in a second, by a clock. It ends where the clock fails, or after 2^64 − 1
/// ticks; it tells its ticks and its end.
#[derive(Drop)]
pub struct ClockPace<C> {
    clock: C,
    rate: Rate,
    /// When the first tick came.
    start: Option<Duration>,
    ticks: u64,
    ended: bool,
    ghost moves: { 0 < rate.num },
}

/// How long so many ticks take.
fn time_of(ticks: u64, rate: Rate) -> Duration
    requires moves { 0 < rate.num }
{
    let nanos = u128::from(ticks) * u128::from(rate.den) * 1_000_000_000 / u128::from(rate.num);
    Duration::from_nanos(u64::try_from(nanos).unwrap_or(u64::MAX))
}

impl<C> ClockPace<C> {
    pub fn new(clock: C, rate: Rate) -> ClockPace<C>
        requires moves { 0 < rate.num }
        ensures ticks { result.ticks ≡ 0 }
        ensures ended { result.ended ≡ false }
    {
        ClockPace {
            clock,
            rate,
            start: None,
            ticks: 0,
            ended: false,
        }
    }
}

impl<C: Clock> ClockPace<C> {
    /// Waits for the next tick. None where the clock fails, or no more ticks can be counted.
    fn next_tick(&mut self) -> Option<u64>
        ensures next { IfSome result (λ ticks. ticks ≡ self.old.ticks + 1) }
        ensures ticks { self.new.ticks ≡ self.old.ticks }
        ensures ended { self.new.ended ≡ self.old.ended }
    {
        let next = self.ticks.checked_add(1)?;
        let Ok(now) = self.clock.monotonic() else {
            return None;
        };
        let start = self.start.unwrap_or(now);
        self.start = Some(start);
        let due = start.saturating_add(time_of(self.ticks, self.rate));
        self.clock.sleep(due.saturating_sub(now));
        Some(next)
    }
}

impl<C: Clock> Pace for ClockPace<C> {
    ghost Tells = { Unit {0} };

    ghost ticks = { λ pace. pace.ticks };

    ghost ended = { λ pace. pace.ended };

    fn wait(&mut self) -> Beat {
        match self.next_tick() {
            Some(ticks) => {
                self.ticks = ticks;
                Beat::Tick
            }
            None => {
                self.ended = true;
                Beat::End
            }
        }
    }
}
