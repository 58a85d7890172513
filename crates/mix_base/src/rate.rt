//! The rate of frames, and how many of them a duration takes.
ghost use Rattle.std.specs.Prelude.{◌≡◌, ◌≤◌, ◌*◌, ◌+◌, ◌<◌, IsTrue};
ghost use Rattle.mix_base.specs.Rates.{is_rate, frames_of};

/// Frames in a second, as the fraction `num / den`.
#[derive(Clone, Copy)]
pub struct Rate {
    pub num: u32,
    pub den: u32,
}

/// The frames that a duration in milliseconds takes, a begun frame counted whole.
pub fn frames_of(ms: u32, rate: Rate) -> u32
    requires most { ms ≤ 50000 }
    requires rate { IsTrue (is_rate rate) }
    ensures value { result ≡ frames_of ms rate }
{
    let divisor = 1000 * u64::from(rate.den);
    let frames = (u64::from(ms) * u64::from(rate.num) + (divisor - 1)) / divisor;
    frames as u32
}
