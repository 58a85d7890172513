//! The turnstile.
ghost use Rattle.std.specs.Prelude.{◌≡◌, ◌≤◌, ◌<◌, ◌+◌, ◌||◌, List, [], ◌∷◌, ◌++◌, length, sum_by, All, IsTrue, IfOk, IfErr, OnOk, OnErr};
ghost use mathlib.Core.List.{IsPrefix};
ghost use Rattle.mix_turn.specs.Entries.{longer};
ghost use Rattle.mix_turn.specs.Faults.{IsBusy, IsCrowded};
ghost use Rattle.mix_turn.specs.Tally.{no_tally, with_count, with_take, IsWon};
ghost use Rattle.mix_turn.specs.Parts.{all_parts};
ghost use Rattle.mix_turn.specs.Turns.{OnDone, OnMissed, is_full};

use crate::attempt::{attempt, wait_turn};
use crate::faults::{Busy, SplitFault};
use crate::law::Law;
use crate::pass::Pass;
use crate::plays::{Both, Count, Halves, Spare};
use crate::start::Start;
use crate::turn::Turn;
use crate::turned::Turned;
use crate::view::View;
use atomic_table::Table;
use mix_base::{NoMemory, PassNo};
use std::alloc::Global;
use std::marker::Model;
use std::sync::Wait;

/// A lock round a value. It knows the history of the turns that were done.
#[derive(Drop)]
pub struct Turnstile<V: Turned> {
    table: Table<Option<V>, View<V::Entry, V::Start>, Start<V>, Law<V>, Global>,
}

impl<V: Turned> Model for Turnstile<V> {
    ghost use Rattle.std.specs.Prelude.{◌≡◌};
    ghost use Rattle.mix_turn.specs.Known.{Gate};

    ghost Value = { Gate V.Start };

    ghost view = { λ t. record {
      id = t.table.shared.table_id;
      start = t.table.shared.key.seat.me.0;
    } };

    ghost invariant = { λ t. (t.table.shared.table_id.words ≡ 3)
        × (t.table.shared.table_id.slots ≡ 1) };
}

/// The word that counts the numbers of passes that were given.
const MADE: usize = 0;

/// The last number that a pass may have is one below.
const LAST: u64 = 0xffff_ffff;

impl<V: Turned> Turnstile<V> {
    ghost use Rattle.mix_turn.specs.Known.{IsOf, IsFirst, Answers, HasEntriesOf, KnowsAbove, lines_of, greater};

    /// A turnstile round a value that has done no turn, and its first pass.
    pub fn new(alloc: Global, value: V) -> Result<(Turnstile<V>, Pass<V>), NoMemory>
    where
        V: Drop,
        requires journal { V.journal value ≡ [] }
        requires misses { V.misses value ≡ 0 }
        ensures start { IfOk result (λ made. made.0.start ≡ V.start value) }
        ensures first { IfOk result (λ made. IsFirst made.0 made.1) }
    {
        let Ok(mut slots) = Vec::with_capacity(alloc, 1) else {
            drop(value);
            return Err(NoMemory);
        };
        let Ok(start) = Start::of(alloc, &value) else {
            drop(slots);
            drop(value);
            return Err(NoMemory);
        };
        slots.push_reserved(Some(value));
        let opened = Table::new(alloc, &[1, 0, 0], slots, &start);
        drop(start);
        match opened {
            Ok((table, seat)) => Ok((
                Turnstile { table },
                Pass {
                    seat,
                    number: 0,
                    count: 0,
                },
            )),
            Err(_) => Err(NoMemory),
        }
    }

    /// Takes a turn, and waits for it. It waits for good where the turnstile has served 2^63 turns.
    pub fn with_turn<R: Wait>(&self, rt: &R, pass: &mut Pass<V>, entry: V::Entry) -> Turn<V::Answer>
        requires of { IsOf self.now pass.old }
        ensures of { IsOf self.now pass.new }
        ensures reply { Answers V.answers pass.old pass.new entry result }
        ensures done { OnDone result (pass.new.own ≡ pass.old.own ++ entry ∷ []) }
        ensures missed { OnMissed result (pass.new.own ≡ pass.old.own) }
        ensures seen { IsPrefix pass.old.seen pass.new.seen }
        ensures entries { HasEntriesOf pass.new.seen pass.new }
        ensures full { IsTrue pass.old.full → IsTrue pass.new.full }
        ensures refused { IsTrue (is_full result) → IsTrue pass.new.full }
        ensures keeps { pass.new ≡ record pass.old {
          own = pass.new.own;
          seen = pass.new.seen;
          full = pass.new.full;
          tally = pass.new.tally;
        } }
    {
        let from = PassNo {
            pass: pass.number,
            number: pass.count,
        };
        let reply = wait_turn(rt, &self.table.shared, &mut pass.seat, from, entry);
        pass.count = reply.count_after(from.number);
        reply
    }

    /// Takes a turn if it is free now. It looks once at the serving number, and tries once for a
    /// ticket at most. A refused entry is dropped.
    pub fn try_turn(&self, pass: &mut Pass<V>, entry: V::Entry) -> Result<Turn<V::Answer>, Busy>
        requires of { IsOf self.now pass.old }
        ensures of { IsOf self.now pass.new }
        ensures busy { IfErr result (IsBusy pass.old.tally pass.new.tally) }
        ensures won { OnOk result (IsWon pass.old.tally pass.new.tally) }
        ensures err { OnErr result (pass.new ≡ record pass.old { tally = pass.new.tally }) }
        ensures reply { IfOk result (Answers V.answers pass.old pass.new entry) }
        ensures done { IfOk result (λ t. OnDone t (pass.new.own ≡ pass.old.own ++ entry ∷ [])) }
        ensures missed { IfOk result (λ t. OnMissed t (pass.new.own ≡ pass.old.own)) }
        ensures seen { IsPrefix pass.old.seen pass.new.seen }
        ensures entries { HasEntriesOf pass.new.seen pass.new }
        ensures full { IsTrue pass.old.full → IsTrue pass.new.full }
        ensures refused { IfOk result (λ t. IsTrue (is_full t) → IsTrue pass.new.full) }
        ensures keeps { pass.new ≡ record pass.old {
          own = pass.new.own;
          seen = pass.new.seen;
          full = pass.new.full;
          tally = pass.new.tally;
        } }
    {
        let from = PassNo {
            pass: pass.number,
            number: pass.count,
        };
        match attempt(&self.table.shared, &mut pass.seat, from, entry) {
            Ok(reply) => {
                pass.count = reply.count_after(from.number);
                Ok(reply)
            }
            Err((busy, _)) => Err(busy),
        }
    }

    /// A further pass, with a number of its own. It looks once at the count of numbers, and tries
    /// once for the next at most.
    pub fn split(&self, pass: &mut Pass<V>) -> Result<Pass<V>, SplitFault>
        requires of { IsOf self.now pass.old }
        ensures of { IsOf self.now pass.new }
        ensures crowded { IfErr result (IsCrowded pass.old.tally pass.new.tally) }
        ensures taken { IfOk result (λ child. pass.new.tally
            ≡ with_take child.number (with_count child.number pass.old.tally)) }
        ensures err { OnErr result (pass.new ≡ record pass.old { tally = pass.new.tally }) }
        ensures child { IfOk result (IsOf self.now) }
        ensures number { IfOk result (λ child. pass.old.above ≤ child.number) }
        ensures apart { IfOk result (λ child.
            All (λ line. line.pass < child.number) (lines_of pass.old)) }
        ensures above { IfOk result (λ child. child.above ≡ child.number + 1) }
        ensures own { IfOk result (λ child. child.own ≡ []) }
        ensures joined { IfOk result (λ child. child.joined ≡ []) }
        ensures seen { IfOk result (λ child. child.seen ≡ pass.old.seen) }
        ensures full { IfOk result (λ child. child.full ≡ pass.old.full) }
        ensures parts { IfOk result (λ child. pass.new.parts + child.parts ≡ pass.old.parts) }
        ensures tally { IfOk result (λ child. child.tally ≡ no_tally) }
        ensures keeps { IfOk result (λ child. pass.new ≡ record pass.old {
          above = child.above;
          parts = pass.new.parts;
          tally = pass.new.tally;
        }) }
        ensures entries { HasEntriesOf pass.new.seen pass.new }
        ensures below { KnowsAbove pass.new }
    {
        let shared = &self.table.shared;
        let looked = shared.load::<Count>(&mut pass.seat, MADE);
        if looked == LAST {
            return Err(SplitFault::Crowded {
                looked,
                found: looked,
            });
        }
        let found = shared.compare_exchange::<Spare>(&mut pass.seat, MADE, looked, looked + 1);
        if found != looked {
            return Err(SplitFault::Crowded { looked, found });
        }
        let seat = shared.split_seat::<Halves>(&mut pass.seat);
        Ok(Pass {
            seat,
            number: looked as u32,
            count: 0,
        })
    }

    /// Ends a pass: this one takes what the other has seen, its entries and its parts. It looks once
    /// at the count of numbers.
    pub fn join(&self, pass: &mut Pass<V>, other: Pass<V>)
        requires of { IsOf self.now pass.old }
        requires other_of { IsOf self.now other }
        ensures of { IsOf self.now pass.new }
        ensures seen { pass.new.seen ≡ longer pass.old.seen other.seen }
        ensures seen_before { IsPrefix pass.old.seen pass.new.seen }
        ensures seen_by_other { IsPrefix other.seen pass.new.seen }
        ensures full { pass.new.full ≡ (pass.old.full || other.full) }
        ensures joined { pass.new.joined ≡ pass.old.joined ++ lines_of other }
        ensures above { pass.new.above ≡ greater pass.old.above other.above }
        ensures parts { pass.new.parts ≡ pass.old.parts + other.parts }
        ensures number { pass.new.number ≡ pass.old.number }
        ensures own { pass.new.own ≡ pass.old.own }
        ensures tally { pass.new.tally ≡ with_count pass.new.tally.looked pass.old.tally }
        ensures entries { HasEntriesOf pass.new.seen pass.new }
        ensures below { KnowsAbove pass.new }
    {
        let shared = &self.table.shared;
        let Pass {
            seat,
            number: _,
            count: _,
        } = other;
        shared.join_seat::<Both>(&mut pass.seat, seat);
        shared.load::<Count>(&mut pass.seat, MADE);
    }

    /// Ends the turnstile, once all other passes were joined, and gives the value back.
    pub fn close(self, pass: Pass<V>) -> V
        requires of { IsOf self pass }
        requires all { pass.parts ≡ all_parts }
        ensures start { V.start result ≡ self.start }
        ensures seen { IsPrefix pass.seen (V.journal result) }
        ensures entries { HasEntriesOf (V.journal result) pass }
        ensures every { length (V.journal result) ≡ sum_by (λ l. length l.entries) (lines_of pass) }
        ensures full { IsTrue pass.full → IsTrue (V.full result) }
    {
        let Turnstile { table } = self;
        let Pass {
            seat,
            number: _,
            count: _,
        } = pass;
        let mut closed = table.close_with(seat);
        let value = closed.take(0);
        closed.free();
        value.unwrap()
    }
}
