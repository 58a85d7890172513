//! What work goes at.
ghost use Rattle.std.specs.Prelude.{◌≡◌, ◌+◌, ◌||◌, Bool, ℕ};
ghost use Rattle.mix_outside.specs.Paces.{ticks_in, is_last};

/// What a pace gives.
#[derive(Clone, Copy)]
pub enum Beat {
    /// It is time for one more piece of work.
    Tick,
    /// There is no more to do.
    End,
}

/// What work goes at. It waits for the time of the next piece.
pub trait Pace {
    /// Whether a pace of this type tells its ticks and its end: a fact, or none.
    ghost Tells: { Type 0 };

    /// How many ticks it gave, where it tells them.
    ghost ticks: { Self → ℕ };

    /// Whether it gave its end, where it tells that.
    ghost ended: { Self → Bool };

    fn wait(&mut self) -> Beat
        ensures ticks { Tells → ticks self.new ≡ ticks self.old + ticks_in result }
        ensures ended { Tells → ended self.new ≡ (ended self.old || is_last result) };
}
