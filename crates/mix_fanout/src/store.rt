//! Plain work on the events that are kept.
ghost use Rattle.std.specs.Prelude.{◌≡◌, ◌≤◌, ◌<◌, ◌+◌, ℕ, [], ◌∷◌};
ghost use Rattle.std.specs.Prelude.{IfOk, map, vec_capacity, vec_len};
ghost use Rattle.slab.specs.Slab.{HasRoomFor};
ghost use Rattle.mix_events.specs.declared.said.Said.TheVariants.{Event as OfEvent};
ghost use Rattle.mix_fanout.specs.Keys.{LetGo, TakesIn, events_of, held, keys_at, times};

use crate::kept::Kept;
use crate::lane::Lane;
use mix_base::{ConnId, NoMemory};
use mix_events::{Said, ToldEvent};
use slab::Slab;
use std::alloc::Global;

/// Keeps an event under the vacant key for so many connections, or lets it go where there is none.
pub fn take_in(store: &mut Slab<Kept>, event: ToldEvent, holders: usize)
    requires { HasRoomFor store.old 1 }
    ensures state { TakesIn store.old store.new store.old.vacant_key event holders }
{
    if holders > 0 {
        store.insert_reserved(Kept { event, holders });
    } else {
        drop(event);
    }
}

/// One connection fewer holds the event, and the last one lets it go.
fn let_go(store: &mut Slab<Kept>, key: usize)
    requires { 0 < held store.old key }
    ensures state { LetGo store.old store.new (key ∷ []) }
{
    match store.get_mut(key) {
        Some(kept) if kept.holders > 1 => kept.holders -= 1,
        _ => drop(store.try_remove(key)),
    }
}

/// One connection fewer holds each of these events, as often as it stands here.
fn let_all_go(store: &mut Slab<Kept>, keys: &[usize])
    requires { (key : ℕ) → times key keys.now ≤ held store.old key }
    ensures state { LetGo store.old store.new keys.now }
{
    for key in keys {
        let_go(store, *key);
    }
}

/// Lets go what waits for the connection.
pub fn release(store: &mut Slab<Kept>, lanes: &[Lane], conn: ConnId)
    requires { (key : ℕ) → times key (keys_at conn lanes.now) ≤ held store.old key }
    ensures state { LetGo store.old store.new (keys_at conn lanes.now) }
{
    for lane in lanes {
        if lane.is(conn) {
            let_all_go(store, lane.keys());
        }
    }
}

/// The events under these keys, each as it is said, with room for `more` further texts.
pub fn texts(
    alloc: Global,
    store: &Slab<Kept>,
    keys: &[usize],
    more: u32,
) -> Result<Vec<Said>, NoMemory>
    ensures said { IfOk result (λ said. said.items ≡ map OfEvent (events_of store.now keys.now)) }
    ensures room { IfOk result (λ said. vec_len said + more ≤ vec_capacity said) }
{
    let mut said = Vec::with_capacity(alloc, keys.len() + more as usize)?;
    for key in keys {
        if let Some(kept) = store.get(*key) {
            let Ok(event) = kept.event.share() else {
                drop(said);
                return Err(NoMemory);
            };
            said.push_reserved(Said::Event(event));
        }
    }
    Ok(said)
}
