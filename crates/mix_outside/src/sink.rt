//! What bytes are written to.
ghost use Rattle.std.specs.Prelude.{◌≡◌, ◌≢◌, ◌≤◌, List, ℕ};
ghost use Rattle.mix_outside.specs.Faults.{Rose};
ghost use Rattle.mix_outside.specs.Bytes.{Puts};

/// What a write answers.
#[derive(Clone, Copy)]
pub enum Put {
    /// The whole piece is written.
    Done,
    /// The outside failed, and the count of faults tells so; some front of the piece is written.
    Failed,
}

/// What bytes are written to.
pub trait Sink {
    /// Whether a sink of this type tells the bytes that it holds: a fact, or none.
    ghost Tells: { Type 0 };

    /// The bytes that it holds, where it tells them.
    ghost held: { Self → List ℕ };

    /// How often it failed; the count rises at a failure alone, and stays at its last value,
    /// 2^64 − 1.
    ghost faults: { Self → ℕ };

    /// Writes a piece behind what it holds.
    fn write(&mut self, piece: &[u8]) -> Put
        ensures bytes { Tells → Puts result piece.now (held self.old) (held self.new) }
        ensures later { faults self.old ≤ faults self.new }
        ensures cause { result ≡ Put.Failed → Rose (faults self.old) (faults self.new) }
        ensures steady { result ≢ Put.Failed → faults self.new ≡ faults self.old };
}
