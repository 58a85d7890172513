//! The fan-out: which events wait for which connection.
ghost use Rattle.std.specs.Prelude.{◌≡◌, ◌≤◌, ◌+◌, ◌-◌, [], ◌∷◌, ◌++◌, IfOk, OnErr, OnOk, IsTrue};
ghost use Rattle.std.specs.Prelude.{filter, map, max, not, false, true, vec_capacity, vec_len};
ghost use Rattle.mix_fanout.specs.Lanes.{cleared, cut_where_full, is_cut, is_joined, is_lane};
ghost use Rattle.mix_fanout.specs.Lanes.{masked, new_lane, posted, said_to};

use crate::kept::Kept;
use crate::lane::Lane;
use crate::waiting::Waiting;
use crate::{lanes, store};
use mix_base::{ConnId, NoMemory};
use mix_events::{ToldEvent, intent};
use slab::Slab;
use std::alloc::Global;
use std::marker::Model;

/// The joined connections with the events that wait for them. Each event is kept once.
///
/// ```text
/// join --> told of nothing --set_mask--> told of its events --cut_full--> cut --leave-->
/// ```
#[derive(Drop)]
pub struct Fanout {
    lanes: Vec<Lane>,
    store: Slab<Kept>,
    spare: u32,
    limit: u32,
}

impl Model for Fanout {
    ghost use Rattle.std.specs.Prelude.{map};
    ghost use Rattle.std.specs.Coded.{codes};
    ghost use Rattle.mix_base.specs.contracts.json.Json as json_contracts;
    ghost use Rattle.mix_fanout.specs.Lanes.{Fans};
    ghost use Rattle.mix_fanout.specs.Keys.{Holds, lane_of};

    ghost Value = { Fans };

    ghost coded = { Prim.hlevel (codes, json_contracts.the_row.coded) };

    ghost view = { λ f. record {
      lanes = map (lane_of f.store) f.lanes.items;
      spare = f.spare;
      limit = f.limit;
    } };

    ghost invariant = { λ f. Holds f.spare f.store f.lanes.items };
}

impl Fanout {
    /// A fan-out that nobody has joined. A connection is full where `waiting` texts wait for it.
    pub fn new(alloc: Global, waiting: u32) -> Fanout
        ensures lanes { result.lanes ≡ [] }
        ensures spare { result.spare ≡ 0 }
        ensures limit { result.limit ≡ waiting }
    {
        Fanout {
            lanes: Vec::new(alloc),
            store: Slab::new(alloc),
            spare: 0,
            limit: waiting,
        }
    }

    /// Whether the connection has joined.
    pub fn has(&self, conn: ConnId) -> bool
        ensures value { result ≡ is_joined conn self.now.lanes }
    {
        lanes::has(&self.lanes, conn)
    }

    /// Whether the connection is cut. Who hasn't joined is not.
    pub fn is_cut(&self, conn: ConnId) -> bool
        ensures value { result ≡ is_cut conn self.now.lanes }
    {
        lanes::is_cut(&self.lanes, conn)
    }

    /// For how many events there is room.
    pub fn spare(&self) -> u32
        ensures value { result ≡ self.now.spare }
    {
        self.spare
    }

    /// A connection comes. It is told of nothing before it has a mask.
    pub fn join(&mut self, alloc: Global, conn: ConnId) -> Result<(), NoMemory>
        requires is_new { is_joined conn self.old.lanes ≡ false }
        ensures lanes { OnOk result (self.new.lanes ≡ self.old.lanes ++ new_lane conn ∷ []) }
        ensures spare { self.new.spare ≡ self.old.spare }
        ensures limit { self.new.limit ≡ self.old.limit }
        ensures err { OnErr result (self.new ≡ self.old) }
    {
        let lane = Lane::new(alloc, conn, self.spare)?;
        self.lanes.push(lane)?;
        Ok(())
    }

    /// A connection goes, and what waited for it goes too.
    pub fn leave(&mut self, conn: ConnId)
        requires joined { is_joined conn self.old.lanes ≡ true }
        ensures lanes { self.new.lanes ≡ filter (λ lane. not (is_lane conn lane)) self.old.lanes }
        ensures spare { self.new.spare ≡ self.old.spare }
        ensures limit { self.new.limit ≡ self.old.limit }
    {
        store::release(&mut self.store, &self.lanes, conn);
        lanes::leave(&mut self.lanes, conn);
    }

    /// Says which events the connection is told of from now on. What waits for it stays.
    pub fn set_mask(&mut self, conn: ConnId, mask: u32)
        requires joined { is_joined conn self.old.lanes ≡ true }
        ensures lanes { self.new.lanes ≡ map (masked conn mask) self.old.lanes }
        ensures spare { self.new.spare ≡ self.old.spare }
        ensures limit { self.new.limit ≡ self.old.limit }
    {
        lanes::set_mask(&mut self.lanes, conn, mask);
    }

    /// Makes room for so many events, each of which may then be posted without memory.
    pub fn reserve(&mut self, texts: u32) -> Result<(), NoMemory>
        ensures room { OnOk result (self.new.spare ≡ max texts self.old.spare) }
        ensures lanes { self.new.lanes ≡ self.old.lanes }
        ensures limit { self.new.limit ≡ self.old.limit }
        ensures err { OnErr result (self.new ≡ self.old) }
    {
        if texts > self.spare {
            self.store.reserve(texts as usize)?;
            lanes::reserve(&mut self.lanes, texts)?;
            self.spare = texts;
        }
        Ok(())
    }

    /// What waits for the connection, with room for `more` further texts.
    pub fn copy(&self, alloc: Global, conn: ConnId, more: u32) -> Result<Waiting, NoMemory>
        requires joined { is_joined conn self.now.lanes ≡ true }
        ensures said { IfOk result (λ waiting. waiting.said.items ≡ said_to conn self.now.lanes) }
        ensures cut { IfOk result (λ waiting. waiting.cut ≡ is_cut conn self.now.lanes) }
        ensures room { IfOk result (λ waiting.
            vec_len waiting.said + more ≤ vec_capacity waiting.said) }
    {
        lanes::waiting(alloc, &self.lanes, &self.store, conn, more)
    }

    /// Queues an event for each connection but one that is told of it.
    pub fn post(&mut self, event: ToldEvent, but: Option<ConnId>)
        requires room { 1 ≤ self.old.spare }
        ensures lanes { self.new.lanes ≡ map (posted event but) self.old.lanes }
        ensures spare { self.new.spare ≡ self.old.spare - 1 }
        ensures limit { self.new.limit ≡ self.old.limit }
    {
        let key = self.store.vacant_key();
        let holders = lanes::post(&mut self.lanes, key, intent(event.event()), number_of(but));
        store::take_in(&mut self.store, event, holders);
        self.spare -= 1;
    }

    /// Empties the list of what waits for the connection.
    pub fn clear(&mut self, conn: ConnId)
        requires joined { is_joined conn self.old.lanes ≡ true }
        ensures lanes { self.new.lanes ≡ map (cleared conn) self.old.lanes }
        ensures spare { self.new.spare ≡ self.old.spare }
        ensures limit { self.new.limit ≡ self.old.limit }
    {
        store::release(&mut self.store, &self.lanes, conn);
        lanes::clear(&mut self.lanes, conn);
    }

    /// Cuts each connection but one for which as many texts wait as make it full, or more.
    pub fn cut_full(&mut self, but: Option<ConnId>)
        ensures lanes { self.new.lanes ≡ map (cut_where_full self.old.limit but) self.old.lanes }
        ensures spare { self.new.spare ≡ self.old.spare }
        ensures limit { self.new.limit ≡ self.old.limit }
    {
        lanes::cut_full(&mut self.lanes, self.limit, number_of(but));
    }
}

fn number_of(conn: Option<ConnId>) -> Option<u32>
    ensures value { result ≡ conn }
{
    match conn {
        None => None,
        Some(conn) => Some(conn.0),
    }
}
