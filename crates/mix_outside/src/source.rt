//! What bytes are read from.
ghost use Rattle.std.specs.Prelude.{◌≡◌, ◌≢◌, ◌<◌, ◌≤◌, List, ℕ, length};
ghost use Rattle.mix_outside.specs.Faults.{Rose};
ghost use Rattle.mix_outside.specs.Bytes.{IsWithin, Takes};

/// What a read answers.
#[derive(Clone, Copy)]
pub enum Take {
    /// So many bytes came, at the front of the slice that was given: one at least.
    Bytes(usize),
    /// Nothing is left.
    End,
    /// The outside failed, and the count of faults tells so.
    Failed,
}

/// What bytes are read from.
pub trait Source {
    /// Whether a source of this type tells the bytes that are left: a fact, or none.
    ghost Tells: { Type 0 };

    /// The bytes that are left, where it tells them.
    ghost left: { Self → List ℕ };

    /// How often it failed; the count rises at a failure alone, and stays at its last value,
    /// 2^64 − 1.
    ghost faults: { Self → ℕ };

    /// Reads some bytes into the front of a slice that isn't empty.
    fn read(&mut self, into: &mut [u8]) -> Take
        requires room { 0 < length into.old }
        ensures within { IsWithin result (length into.old) }
        ensures bytes { Tells → Takes result into.new (left self.old) (left self.new) }
        ensures later { faults self.old ≤ faults self.new }
        ensures cause { result ≡ Take.Failed → Rose (faults self.old) (faults self.new) }
        ensures steady { result ≢ Take.Failed → faults self.new ≡ faults self.old };
}
