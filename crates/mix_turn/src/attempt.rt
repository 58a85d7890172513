//! One try for a turn, and tries until one wins.
ghost use Rattle.std.specs.Prelude.{◌≡◌, ◌+◌, ◌<◌, ◌^◌, false, [], MatchResult, OnOk};
ghost use Rattle.mix_turn.specs.Entries.{entered};
ghost use Rattle.mix_turn.specs.Faults.{IsBusy};
ghost use Rattle.mix_turn.specs.Tally.{IsWon};
ghost use Rattle.mix_turn.specs.Steps.{IsAtRest, Takes};
ghost use Rattle.mix_turn.specs.Views.{IsLive, looking, tallied};

use crate::faults::Busy;
use crate::law::Law;
use crate::plays::{Advance, Look, Try};
use crate::start::Start;
use crate::turn::Turn;
use crate::turned::Turned;
use crate::view::View;
use atomic_table::{Seat, Shared};
use mix_base::PassNo;
use std::sync::Wait;
use std::thread;

/// The word that counts the turns that were begun.
pub(crate) const TICKET: usize = 1;

/// The word that counts the turns that are over.
pub(crate) const SERVING: usize = 2;

/// One look at the serving number.
fn look_at_serving<V: Turned>(
    shared: &Shared<Option<V>, View<V::Entry, V::Start>, Start<V>, Law<V>>,
    seat: &mut Seat<Option<V>, View<V::Entry, V::Start>>,
) -> u64
    requires of { seat.old.table_id ≡ shared.now.table_id }
    requires words { shared.now.table_id.words ≡ 3 }
    requires idle { seat.old.me.0.turn ≡ false }
    ensures of { seat.new.table_id ≡ seat.old.table_id }
    ensures looked { seat.new.me ≡ (looking result seat.old.me.0, seat.old.me.1) }
{
    shared.load::<Look>(seat, SERVING)
}

/// One look at the serving number, and one try for its ticket at most. A refused entry comes back.
pub(crate) fn attempt<V: Turned>(
    shared: &Shared<Option<V>, View<V::Entry, V::Start>, Start<V>, Law<V>>,
    seat: &mut Seat<Option<V>, View<V::Entry, V::Start>>,
    from: PassNo,
    entry: V::Entry,
) -> Result<Turn<V::Answer>, (Busy, V::Entry)>
    requires of { seat.old.table_id ≡ shared.now.table_id }
    requires words { shared.now.table_id.words ≡ 3 }
    requires slots { shared.now.table_id.slots ≡ 1 }
    requires live { IsLive seat.old.me.0 }
    requires rests { IsAtRest seat.old.me from.pass from.number }
    ensures of { seat.new.table_id ≡ seat.old.table_id }
    ensures empty { seat.new.me.1 ≡ [] }
    ensures turn { MatchResult result
        (λ reply. Takes V.answers seat.old.me.0 (entered from entry) reply seat.new.me.0)
        (λ refused. (seat.new.me.0 ≡ tallied seat.new.me.0.tally seat.old.me.0)
        × (refused.1 ≡ entry) × IsBusy seat.old.me.0.tally seat.new.me.0.tally refused.0) }
    ensures won { OnOk result (IsWon seat.old.me.0.tally seat.new.me.0.tally) }
{
    let serving = look_at_serving(shared, seat);
    if serving >= 1 << 63 {
        return Err((
            Busy {
                ticket: serving,
                serving,
            },
            entry,
        ));
    }
    let ticket = shared.compare_exchange::<Try<V>>(seat, TICKET, serving, serving + 1);
    if ticket != serving {
        return Err((Busy { ticket, serving }, entry));
    }
    let mut value = shared.exchange(seat, 0, None).unwrap();
    let reply = value.turn(from, entry);
    let empty = shared.exchange(seat, 0, Some(value));
    let None = empty else { unreachable!() };
    shared.fetch_add::<Advance<V>>(seat, SERVING, 1);
    Ok(reply)
}

/// Tries until one wins.
pub(crate) fn wait_turn<V: Turned, R: Wait>(
    rt: &R,
    shared: &Shared<Option<V>, View<V::Entry, V::Start>, Start<V>, Law<V>>,
    seat: &mut Seat<Option<V>, View<V::Entry, V::Start>>,
    from: PassNo,
    entry: V::Entry,
) -> Turn<V::Answer>
    requires of { seat.old.table_id ≡ shared.now.table_id }
    requires words { shared.now.table_id.words ≡ 3 }
    requires slots { shared.now.table_id.slots ≡ 1 }
    requires live { IsLive seat.old.me.0 }
    requires rests { IsAtRest seat.old.me from.pass from.number }
    ensures of { seat.new.table_id ≡ seat.old.table_id }
    ensures empty { seat.new.me.1 ≡ [] }
    ensures turn { Takes V.answers seat.old.me.0 (entered from entry) result seat.new.me.0 }
{
    let mut entry = entry;
    for _ in rt.forever() {
        match attempt(shared, seat, from, entry) {
            Ok(reply) => return reply,
            Err((_, refused)) => entry = refused,
        }
        thread::yield_now();
    }
    unreachable!()
}
