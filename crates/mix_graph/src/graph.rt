//! A graph of sources, whose calls are the edits of an action.
ghost use Rattle.std.specs.Prelude.{◌≡◌, ◌<◌, ◌≤◌, ◌++◌, [], ◌↔◌, IsTrue, IsErr, IfOk, OnOk, OnErr};
ghost use Rattle.std.specs.Prelude.{IfSome, MatchOption, option_map, slice_get, slice_index_or, not};
ghost use Rattle.std.specs.Prelude.{length, map, vec_capacity, vec_len};
ghost use Rattle.std.specs.List.{list_any, list_all};
ghost use Rattle.mix_model.specs.Sets.{agree};
ghost use Rattle.mix_model.specs.Lookups.{row_of, named_by};
ghost use Rattle.mix_model.specs.Holders.{is_named, find_named};
ghost use Rattle.mix_model.specs.Walks.{is_active};
ghost use Rattle.mix_model.specs.Views.{IsView};
ghost use Rattle.mix_model.specs.EditedShape.{EditedShape};
ghost use Rattle.mix_store.specs.Edited.{edited_by};
ghost use Rattle.mix_model.specs.Marks.{edited, actions_begun, was_active, changes_by};
ghost use Rattle.mix_model.specs.Edits.{scene_created, channel_set, clock_set, empty_graph};
ghost use Rattle.mix_model.specs.Causes.{scene_cause};
ghost use Rattle.mix_shape.specs.Refused.{RefusedBy, are_limits, may_be_set, is_missing};

use mix_base::{Limits, Name, Serial};
use mix_model::{Change, GraphFault};
use mix_store::{Edit, Sources, Tally};
use std::alloc::Global;
use std::marker::Model;

/// A serial isn't that of a named row, or a number isn't there.
#[derive(Clone, Copy)]
pub struct Missing;

/// The sources of a mixer. An action begins with `begin_changes`; each call of it leaves its edit,
/// settled against what stood when the action began.
#[derive(Drop)]
pub struct Graph {
    pub(crate) alloc: Global,
    pub(crate) sources: Sources,
    pub(crate) tally: Tally,
}

impl Model for Graph {
    ghost use Rattle.mix_model.specs.Marks.{GraphModel};
    ghost use Rattle.mix_store.specs.Whole.{IsWhole};

    ghost Value = { GraphModel };

    ghost view = { λ g. record { begun = g.tally.begun; present = g.sources } };

    ghost invariant = { λ g. IsWhole g.tally g.sources };
}

impl Graph {
    /// No source, sixty-four empty channels, no preview, and clock 0.
    pub fn new(alloc: Global, limits: Limits) -> Graph
        requires limits { IsTrue (are_limits limits) }
        ensures begun { result.begun ≡ [] }
        ensures present { result.present ≡ empty_graph }
    {
        let _ = limits;
        Graph {
            alloc,
            sources: Sources::new(alloc),
            tally: Tally::new(alloc),
        }
    }

    /// Does an edit that takes no memory, and settles.
    pub(crate) fn edit(&mut self, edit: Edit)
        requires { EditedShape (edited_by edit self.old.present) }
        ensures { self.new ≡ edited (edited_by edit) self.old }
    {
        self.sources.edit(self.alloc, edit);
        self.tally.settle(&mut self.sources);
    }

    /// A scene, last in the registry.
    pub fn create_scene(&mut self, name: Name) -> Result<Serial, GraphFault>
        requires drawn { self.old.present.next_serial < 4294967295 }
        ensures reply { IfOk result (λ serial. serial ≡ self.old.present.next_serial) }
        ensures ok { OnOk result (self.new ≡ edited (scene_created name) self.old) }
        ensures err { OnErr result (self.new ≡ self.old) }
        ensures refused { RefusedBy
            (scene_cause self.old.present name (scene_created name self.old.present)) result }
    {
        if let Err(fault) = self.sources.check_source(name.bytes()) {
            return Err(fault);
        }
        let Ok(()) = self.tally.grow() else {
            return Err(GraphFault::NoMemory);
        };
        match self.sources.create_scene(self.alloc, name) {
            Err(_) => {
                self.tally.cut(self.sources.rows().len());
                Err(GraphFault::NoMemory)
            }
            Ok(serial) => {
                self.tally.settle_living(&mut self.sources);
                Ok(serial)
            }
        }
    }

    /// Sets what a channel below 64 names.
    pub fn set_channel(
        &mut self,
        channel: u32,
        first: Option<Serial>,
        second: Option<Serial>,
    ) -> Result<(), Missing>
        requires below { channel < 64 }
        requires given { IsTrue (may_be_set self.old.present channel (first, second)) }
        ensures ok { OnOk result (self.new ≡ edited (channel_set channel (first, second)) self.old) }
        ensures err { OnErr result (self.new ≡ self.old) }
        ensures missing { IsErr result
            ↔ IsTrue (list_any (is_missing self.old.present) (named_by (first, second))) }
    {
        if self.sources.is_missing(&first) || self.sources.is_missing(&second) {
            return Err(Missing);
        }
        self.sources.set_channel(channel, (first, second));
        self.tally.settle(&mut self.sources);
        Ok(())
    }

    /// Sets the clock of pictures.
    pub fn set_clock(&mut self, clock: u64)
        requires rises { self.old.present.clock ≤ clock }
        requires settled { IsTrue (list_all (λ r. agree (was_active self.old.begun r.serial)
            (is_active self.old.present r.serial)) self.old.present.rows) }
        ensures state { self.new ≡ edited (clock_set clock) self.old }
    {
        self.sources.set_clock(clock);
        self.tally.settle(&mut self.sources);
    }

    /// An action begins: what changes is told against what stands now.
    pub fn begin_changes(&mut self)
        ensures state { self.new ≡ actions_begun self.old }
    {
        self.tally.begin(&self.sources);
    }

    /// What has changed since the action began, for all rows: first who became active or no longer
    /// is, and then who began to show or no longer does.
    pub fn changes(&self) -> &[Change]
        ensures reply { result.now
            ≡ changes_by self.now.begun self.now.present self.now.present.rows }
    {
        self.tally.changes()
    }
}
