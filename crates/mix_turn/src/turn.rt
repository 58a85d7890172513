//! What a turn answers.

/// Why a turn was missed. Its entry is then in no history.
#[derive(Clone, Copy)]
pub enum Miss {
    /// The history is full: it has this many turns, and this many bytes.
    Full { turns: u64, bytes: u64 },
    /// There was no memory for it.
    NoMemory,
}

/// The answer of a turn that was done, or why it was missed.
#[derive(Drop)]
pub enum Turn<A> {
    Done(A),
    Missed(Miss),
}

impl<A> Turn<A> {
    ghost use Rattle.std.specs.Prelude.{◌≡◌, ◌+◌, ◌<◌, ◌^◌};
    ghost use Rattle.mix_turn.specs.Turns.{done_turns};

    /// A count of done turns, with this one if it was done.
    pub(crate) fn count_after(&self, count: u64) -> u64
        requires { count < 2 ^ 63 }
        ensures { result ≡ count + done_turns self.now }
    {
        match self {
            Turn::Done(_) => count + 1,
            Turn::Missed(_) => count,
        }
    }
}
