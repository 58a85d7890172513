//! What links come through.
ghost use Rattle.std.specs.Prelude.{◌≡◌, ◌≢◌, ◌≤◌, ◌+◌, ◌++◌, ◌||◌, Bool, List, [], ℕ};
ghost use Rattle.mix_outside.specs.Faults.{Rose};
ghost use Rattle.mix_outside.specs.Doors.{links_in, is_end, waits_in};

use crate::Link;
use mix_base::{Bytes32, NoMemory};

/// What comes through a door.
#[derive(Drop)]
pub enum Came<L> {
    /// A link, with the challenge of its login.
    Link { link: L, challenge: Bytes32 },
    /// No link came yet.
    Idle,
    /// No link comes any more.
    End,
    /// The outside failed, and the count of faults tells so.
    Failed,
}

/// What links come through. Where a call answers `NoMemory`, it gave nothing.
pub trait Door {
    type L: Link + Drop;

    /// Whether a door of this type tells the links that are left: a fact, or none.
    ghost Tells: { Type 0 };

    /// The links that are left, in order, each with its challenge, where it tells them.
    ghost left: { Self → List (Self.L × List ℕ) };

    /// Whether it gave its end, where it tells that.
    ghost ended: { Self → Bool };

    /// How often it failed; the count rises at a failure alone, and stays at its last value,
    /// 2^64 − 1.
    ghost faults: { Self → ℕ };

    /// How often it was idle.
    ghost idles: { Self → ℕ };

    /// Who comes next.
    fn next(&mut self) -> Result<Came<Self::L>, NoMemory>
        ensures left { Tells → left self.old ≡ links_in result ++ left self.new }
        ensures end { Tells → result ≡ Ok Came.End → left self.new ≡ [] }
        ensures ended { Tells → ended self.new ≡ (ended self.old || is_end result) }
        ensures idle { idles self.new ≡ idles self.old + waits_in result }
        ensures later { faults self.old ≤ faults self.new }
        ensures cause { result ≡ Ok Came.Failed → Rose (faults self.old) (faults self.new) }
        ensures steady { result ≢ Ok Came.Failed → faults self.new ≡ faults self.old };
}
