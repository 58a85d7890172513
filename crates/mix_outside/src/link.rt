//! What the messages of a connection come from, and where its texts go.
ghost use Rattle.std.specs.Prelude.{◌≡◌, ◌≢◌, ◌≤◌, ◌+◌, ◌++◌, List, [], ℕ};
ghost use Rattle.mix_outside.specs.Faults.{Rose};
ghost use Rattle.mix_outside.specs.Links.{answered, messages_in, idles_in, text_sent, close_sent};
ghost use Rattle.mix_outside.specs.declared.got.Got.{Got};
ghost use Rattle.mix_outside.specs.declared.got.Sent.{Sent};

use crate::{Got, Put};
use mix_base::{NoMemory, Text};

/// The link of one connection. Where a call answers `NoMemory`, it gave, took and sent nothing.
pub trait Link {
    /// Whether a link of this type tells what it gave, has left and was sent: a fact, or none.
    ghost Tells: { Type 0 };

    /// The answers that it gave, in order, where it tells them.
    ghost taken: { Self → List Got };

    /// The messages that it has left, in order, where it tells them.
    ghost left: { Self → List Got };

    /// The texts and codes that it was sent, in order, where it tells them.
    ghost sent: { Self → List Sent };

    /// How often it failed; the count rises at a failure alone, and stays at its last value,
    /// 2^64 − 1.
    ghost faults: { Self → ℕ };

    /// How often it was idle.
    ghost idles: { Self → ℕ };

    /// What comes next.
    fn recv(&mut self) -> Result<Got, NoMemory>
        ensures taken { Tells → taken self.new ≡ taken self.old ++ answered result }
        ensures left { Tells → left self.old ≡ messages_in result ++ left self.new }
        ensures end { Tells → result ≡ Ok Got.End → left self.new ≡ [] }
        ensures sent { Tells → sent self.new ≡ sent self.old }
        ensures idle { idles self.new ≡ idles self.old + idles_in result }
        ensures later { faults self.old ≤ faults self.new }
        ensures cause { result ≡ Ok Got.Failed → Rose (faults self.old) (faults self.new) }
        ensures steady { result ≢ Ok Got.Failed → faults self.new ≡ faults self.old };

    /// Sends a text.
    fn send(&mut self, text: &Text) -> Result<Put, NoMemory>
        ensures sent { Tells → sent self.new ≡ sent self.old ++ text_sent text.now result }
        ensures taken { Tells → taken self.new ≡ taken self.old }
        ensures left { Tells → left self.new ≡ left self.old }
        ensures idle { idles self.new ≡ idles self.old }
        ensures later { faults self.old ≤ faults self.new }
        ensures cause { result ≡ Ok Put.Failed → Rose (faults self.old) (faults self.new) }
        ensures steady { result ≢ Ok Put.Failed → faults self.new ≡ faults self.old };

    /// Closes it with a code (RFC 6455).
    fn close(&mut self, code: u16) -> Result<Put, NoMemory>
        ensures sent { Tells → sent self.new ≡ sent self.old ++ close_sent code result }
        ensures taken { Tells → taken self.new ≡ taken self.old }
        ensures left { Tells → left self.new ≡ left self.old }
        ensures idle { idles self.new ≡ idles self.old }
        ensures later { faults self.old ≤ faults self.new }
        ensures cause { result ≡ Ok Put.Failed → Rose (faults self.old) (faults self.new) }
        ensures steady { result ≢ Ok Put.Failed → faults self.new ≡ faults self.old };
}
