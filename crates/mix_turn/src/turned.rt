//! A value that changes by turns, and keeps the journal of them.
ghost use Rattle.std.specs.Prelude.{◌≡◌, ℕ, ◌+◌, ◌-◌, ◌<◌, ◌^◌, Bool, ◌||◌, List, [], ◌∷◌, ◌++◌, length};
ghost use Rattle.mix_turn.specs.declared.entered.Entered.{Entered};
ghost use Rattle.mix_turn.specs.declared.turn.Turn.{Turn};
ghost use Rattle.mix_turn.specs.Entries.{entered};
ghost use Rattle.mix_turn.specs.Turns.{done_entries, is_full, missed_turns};

use crate::turn::Turn;
use mix_base::PassNo;

/// A value that a turnstile may guard.
pub trait Turned {
    type Entry: Drop;

    type Answer;
    /// What the value was made of: plain data that no turn changes.
    type Start;

    /// The entries of its done turns, in order.
    ghost journal: { Self → List (Entered Self.Entry) };

    /// How many turns it has missed.
    ghost misses: { Self → ℕ };

    ghost start: { Self → Self.Start };

    /// Whether a turn of it was ever refused since its history was full.
    ghost full: { Self → Bool };

    /// Of the start, the journal found, the entry, and what `turn` answers.
    ghost answers: { Self.Start → List (Entered Self.Entry) → Entered Self.Entry
        → Turn Self.Answer → Type 0 };

    /// Does one turn. A done turn adds its entry to the journal, and a missed one leaves it.
    fn turn(&mut self, from: PassNo, entry: Self::Entry) -> Turn<Self::Answer>
        requires { length (journal self.old) + misses self.old < 2 ^ 64 - 1 }
        ensures reply { answers (start self.old) (journal self.old) (entered from entry) result }
        ensures journal { journal self.new
            ≡ journal self.old ++ done_entries result (entered from entry) }
        ensures misses { misses self.new ≡ misses self.old + missed_turns result }
        ensures start { start self.new ≡ start self.old }
        ensures full { full self.new ≡ (full self.old || is_full result) };
}
