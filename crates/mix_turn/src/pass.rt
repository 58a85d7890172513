//! A pass: who may take turns at a turnstile, and what it knows of its history.
ghost use Rattle.mix_turn.specs.Views.{IsLive};

use crate::turned::Turned;
use crate::view::View;
use atomic_table::Seat;
use mix_base::PassNo;
use std::marker::Model;

/// A pass of one turnstile. Between calls it has no turn.
#[derive(Drop)]
pub struct Pass<V: Turned> {
    pub(crate) seat: Seat<Option<V>, View<V::Entry, V::Start>>,
    pub(crate) number: u32,
    pub(crate) count: u64,
    ghost live: { IsLive seat.me.0 },
}

impl<V: Turned> Model for Pass<V> {
    ghost use Rattle.mix_turn.specs.Known.{Known};
    ghost use Rattle.mix_turn.specs.Views.{known_of};
    ghost use Rattle.mix_turn.specs.Steps.{IsAtRest};

    ghost Value = { Known V.Entry V.Start };

    ghost view = { λ pass. known_of pass.seat.table_id pass.seat.me.0 pass.live };

    ghost invariant = { λ pass. IsAtRest pass.seat.me pass.number pass.count };
}

impl<V: Turned> Pass<V> {
    ghost use Rattle.std.specs.Prelude.{◌≡◌};
    ghost use Rattle.mix_turn.specs.Known.{next_of, HasEntriesOf};

    /// Who makes the next entry: the pass's number, and the count of its own entries.
    pub fn next(&self) -> PassNo
        ensures reply { result ≡ next_of self.now }
        ensures entries { HasEntriesOf self.now.seen self.now }
    {
        PassNo {
            pass: self.number,
            number: self.count,
        }
    }
}
