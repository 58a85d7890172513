//! What is kept of when an action began, and what has changed since.
ghost use Rattle.std.specs.Prelude.{◌≡◌, ◌≤◌, ◌<◌, ◌+◌, [], OnOk, OnErr, length, vec_capacity, vec_len};
ghost use Rattle.mix_model.specs.Marks.{marks_of, settled_by};
ghost use Rattle.mix_model.specs.EditedShape.{EditedShape};
ghost use Rattle.mix_model.specs.Settle.{newly_dying};
ghost use Rattle.mix_store.specs.Settling.{IsTold, MarksRise, no_tally};
ghost use Rattle.mix_shape.specs.Begun.{BegunAs};
ghost use Rattle.mix_store.specs.Whole.{IsWhole};

use crate::kept::Stood;
use crate::settle::write_marks;
use crate::sources::Sources;
use crate::told::tell;
use mix_base::NoMemory;
use mix_model::Change;
use std::alloc::Global;
use std::marker::Model;

/// The marks of when an action began, and what has changed since. It has flags and room for so many
/// rows.
#[derive(Drop)]
pub struct Tally {
    begun: Vec<Stood>,
    active: Vec<bool>,
    showing: Vec<bool>,
    changes: Vec<Change>,
}

impl Model for Tally {
    ghost use Rattle.std.specs.Prelude.{length, vec_capacity};
    ghost use Rattle.mix_store.specs.Settling.{Tallied, Roomy};

    ghost Value = { Tallied };

    ghost view = { λ t. record {
      begun = t.begun.items;
      changes = t.changes.items;
      count = length t.active.items;
    } };

    ghost invariant = { λ t. Roomy (length t.active.items) (length t.showing.items)
        (vec_capacity t.begun) (vec_capacity t.changes) };
}

/// Takes room for the flags, the mark and the changes of one row more.
fn reserve_row(
    active: &mut Vec<bool>,
    showing: &mut Vec<bool>,
    begun: &mut Vec<Stood>,
    changes: &mut Vec<Change>,
) -> Result<(), NoMemory>
    ensures active { active.new.items ≡ active.old.items }
    ensures showing { showing.new.items ≡ showing.old.items }
    ensures begun { begun.new.items ≡ begun.old.items }
    ensures changes { changes.new.items ≡ changes.old.items }
    ensures active_room { OnOk result (vec_len active.new < vec_capacity active.new) }
    ensures showing_room { OnOk result (vec_len showing.new < vec_capacity showing.new) }
    ensures begun_room { OnOk result (vec_len active.old + 1 ≤ vec_capacity begun.new) }
    ensures changes_room { OnOk result
        ((vec_len active.old + 1) + (vec_len active.old + 1) ≤ vec_capacity changes.new) }
    ensures begun_keeps { vec_capacity begun.old ≤ vec_capacity begun.new }
    ensures changes_keeps { vec_capacity changes.old ≤ vec_capacity changes.new }
{
    active.reserve(1)?;
    showing.reserve(1)?;
    let rows = active.len() + 1;
    begun.reserve(rows)?;
    changes.reserve(rows + rows)?;
    Ok(())
}

impl Tally {
    pub fn new(alloc: Global) -> Tally
        ensures value { result ≡ no_tally }
    {
        Tally {
            begun: Vec::new(alloc),
            active: Vec::new(alloc),
            showing: Vec::new(alloc),
            changes: Vec::new(alloc),
        }
    }

    /// Takes flags and room for one row more.
    pub fn grow(&mut self) -> Result<(), NoMemory>
        ensures ok { OnOk result
            (self.new ≡ record self.old { count = self.old.count + 1 }) }
        ensures err { OnErr result (self.new ≡ self.old) }
    {
        reserve_row(
            &mut self.active,
            &mut self.showing,
            &mut self.begun,
            &mut self.changes,
        )?;
        self.active.push_reserved(false);
        self.showing.push_reserved(false);
        Ok(())
    }

    /// Cuts the flags to those of so many rows.
    pub fn cut(&mut self, count: usize)
        requires fewer { count ≤ self.old.count }
        ensures value { self.new ≡ record self.old { count = count } }
    {
        self.active.truncate(count);
        self.showing.truncate(count);
    }

    /// Tells what has changed.
    fn tell(&mut self, sources: &Sources)
        requires count { self.old.count ≡ length sources.now.rows }
        requires rising { MarksRise self.old.begun }
        ensures begun { self.new.begun ≡ self.old.begun }
        ensures told { IsTold self.new sources.now }
    {
        tell(
            sources,
            self.begun.as_slice(),
            self.active.as_mut_slice(),
            self.showing.as_mut_slice(),
            &mut self.changes,
        );
    }

    /// Settles the sources against the marks, and tells what has changed.
    pub fn settle(&mut self, sources: &mut Sources)
        requires count { self.old.count ≡ length sources.old.rows }
        requires edited { EditedShape sources.old }
        requires begun { BegunAs self.old.begun sources.old.clock }
        ensures state { sources.new ≡ settled_by self.old.begun sources.old }
        ensures begun { self.new.begun ≡ self.old.begun }
        ensures whole { IsWhole self.new sources.new }
    {
        sources.settle(self.begun.as_slice(), self.active.as_mut_slice());
        self.tell(sources);
    }

    /// The same where nothing begins to die, as after something new that is held.
    pub fn settle_living(&mut self, sources: &mut Sources)
        requires count { self.old.count ≡ length sources.old.rows }
        requires edited { EditedShape sources.old }
        requires begun { BegunAs self.old.begun sources.old.clock }
        requires living { newly_dying sources.old ≡ [] }
        ensures state { sources.new ≡ settled_by self.old.begun sources.old }
        ensures begun { self.new.begun ≡ self.old.begun }
        ensures whole { IsWhole self.new sources.new }
    {
        sources.settle_living(self.begun.as_slice(), self.active.as_mut_slice());
        self.tell(sources);
    }

    /// An action begins: nothing has changed.
    pub fn begin(&mut self, sources: &Sources)
        requires { self.old.count ≡ length sources.now.rows }
        ensures begun { self.new.begun ≡ marks_of sources.now }
        ensures told { IsTold self.new sources.now }
    {
        sources.flag_active(self.active.as_mut_slice());
        sources.flag_showing(self.showing.as_mut_slice());
        write_marks(
            sources.rows(),
            self.active.as_slice(),
            self.showing.as_slice(),
            &mut self.begun,
        );
        self.changes.clear();
    }

    pub fn changes(&self) -> &[Change]
        ensures value { result.now ≡ self.now.changes }
    {
        self.changes.as_slice()
    }
}
