//! The frames that a duration takes.
ghost use Rattle.std.specs.Prelude.{◌≡◌};
ghost use Rattle.mix_base.specs.Rates.{is_rate};

use mix_base::{NoMemory, Rate, frames_of};
use mix_tables::{Table, number};
use std::alloc::Global;

/// Cells: the frames, then the milliseconds, and the rate as a numerator and a denominator.
pub struct Durations;

impl Table for Durations {
    fn found(&self, alloc: Global, line: &str) -> Result<String, NoMemory> {
        let ms = number(line, 1);
        let num = number(line, 2);
        let den = number(line, 3);
        if ms > 50_000 || num > 240_240 || den > 1001 {
            return Ok(String::from_str(alloc, "out of range")?);
        }
        let rate = Rate {
            num: num as u32,
            den: den as u32,
        };
        if !is_rate(rate) {
            return Ok(String::from_str(alloc, "no rate")?);
        }
        Ok(format!(in alloc; "{}", frames_of(ms as u32, rate))?)
    }
}

fn is_rate(rate: Rate) -> bool
    ensures { result ≡ is_rate rate }
{
    1 <= rate.den
        && rate.den <= 1001
        && rate.den <= rate.num
        && u64::from(rate.num) <= 240 * u64::from(rate.den)
}
