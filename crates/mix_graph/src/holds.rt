//! Holds, watches, frames and the preview of a graph.
ghost use Rattle.std.specs.Prelude.{◌≡◌, ◌<◌, ◌==◌, ◌↔◌, IsTrue, IsErr, IfOk, OnOk, OnErr, not, find};
ghost use Rattle.std.specs.Prelude.{option_map, option_to_list};
ghost use Rattle.std.specs.List.{list_any, list_all};
ghost use Rattle.mix_model.specs.Walks.{upgrade, preview_row, is_active, is_showing};
ghost use Rattle.mix_model.specs.Marks.{edited};
ghost use Rattle.mix_model.specs.Causes.{hold_cause, watch_cause};
ghost use Rattle.mix_model.specs.Edits.{hold_made, watch_made, hold_released, watch_dropped};
ghost use Rattle.mix_model.specs.Edits.{frame_released, let_go, preview_set};
ghost use Rattle.mix_shape.specs.Refused.{RefusedBy, is_missing, is_no_other};

use crate::{Graph, Missing};
use mix_base::Serial;
use mix_model::GraphFault;
use mix_store::Edit;

impl Graph {
    /// Holds a named row, under an id of its own.
    pub fn hold(&mut self, serial: Serial) -> Result<u64, GraphFault>
        requires drawn { self.old.present.next_hold < 4294967295 }
        ensures reply { IfOk result (λ id. id ≡ self.old.present.next_hold) }
        ensures ok { OnOk result (self.new ≡ edited (hold_made serial) self.old) }
        ensures err { OnErr result (self.new ≡ self.old) }
        ensures refused { RefusedBy (hold_cause self.old.present serial) result }
    {
        match self.sources.hold(serial) {
            Err(fault) => Err(fault),
            Ok(id) => {
                self.tally.settle(&mut self.sources);
                Ok(id)
            }
        }
    }

    /// Watches a named row, under an id of its own. It holds nothing.
    pub fn watch(&mut self, serial: Serial) -> Result<u64, GraphFault>
        requires drawn { self.old.present.next_watch < 4294967295 }
        ensures reply { IfOk result (λ id. id ≡ self.old.present.next_watch) }
        ensures ok { OnOk result (self.new ≡ edited (watch_made serial) self.old) }
        ensures err { OnErr result (self.new ≡ self.old) }
        ensures refused { RefusedBy (watch_cause self.old.present serial) result }
    {
        match self.sources.watch(serial) {
            Err(fault) => Err(fault),
            Ok(id) => {
                self.tally.settle(&mut self.sources);
                Ok(id)
            }
        }
    }

    /// Lets go of what a hold holds.
    pub fn release_hold(&mut self, id: u64) -> Result<(), Missing>
        ensures ok { OnOk result (self.new ≡ edited (hold_released id) self.old) }
        ensures err { OnErr result (self.new ≡ self.old) }
        ensures missing { IsErr result
            ↔ IsTrue (not (list_any (λ h. h.id == id) self.old.present.holds)) }
    {
        if !self.sources.has_hold(id) {
            return Err(Missing);
        }
        self.edit(Edit::Release(id));
        Ok(())
    }

    /// Drops a watch.
    pub fn drop_watch(&mut self, id: u64) -> Result<(), Missing>
        ensures ok { OnOk result (self.new ≡ edited (watch_dropped id) self.old) }
        ensures err { OnErr result (self.new ≡ self.old) }
        ensures missing { IsErr result
            ↔ IsTrue (not (list_any (λ w. w.id == id) self.old.present.watches)) }
    {
        if !self.sources.has_watch(id) {
            return Err(Missing);
        }
        self.edit(Edit::Unwatch(id));
        Ok(())
    }

    /// Holds are released and watches dropped, as one edit; an id that none has is passed over.
    pub fn let_go(&mut self, holds: &[u64], watches: &[u64])
        ensures state { self.new ≡ edited (let_go holds.now watches.now) self.old }
    {
        self.sources.let_go(holds, watches);
        self.tally.settle(&mut self.sources);
    }

    /// Ends a frame in flight.
    pub fn release_frame(&mut self, number: u64) -> Result<(), Missing>
        ensures ok { OnOk result (self.new ≡ edited (frame_released number) self.old) }
        ensures err { OnErr result (self.new ≡ self.old) }
        ensures missing { IsErr result
            ↔ IsTrue (not (list_any (λ f. f.number == number) self.old.present.frames)) }
    {
        if !self.sources.has_frame(number) {
            return Err(Missing);
        }
        self.edit(Edit::End(number));
        Ok(())
    }

    /// Sets what the preview refers to. It holds nothing.
    pub fn set_preview(&mut self, to: Option<Serial>) -> Result<(), Missing>
        requires scene { IsTrue (list_all (is_no_other self.old.present) (option_to_list to)) }
        ensures ok { OnOk result (self.new ≡ edited (preview_set to) self.old) }
        ensures err { OnErr result (self.new ≡ self.old) }
        ensures missing { IsErr result
            ↔ IsTrue (list_any (is_missing self.old.present) (option_to_list to)) }
    {
        if self.sources.is_missing(&to) {
            return Err(Missing);
        }
        self.edit(Edit::Preview(to));
        Ok(())
    }

    /// What a watch yields: its row while something holds it, and then nothing; none is no watch.
    pub fn query(&self, watch: u64) -> Option<Option<Serial>>
        ensures reply { result ≡ option_map (λ w. upgrade self.now.present w.serial)
            (find (λ w. w.id == watch) self.now.present.watches) }
    {
        self.sources.query(watch)
    }

    /// What the preview yields.
    pub fn preview(&self) -> Option<Serial>
        ensures reply { result ≡ preview_row self.now.present }
    {
        self.sources.preview_row()
    }

    /// The id of the next hold.
    pub fn next_hold(&self) -> u64
        ensures reply { result ≡ self.now.present.next_hold }
    {
        self.sources.next_hold()
    }

    /// The id of the next watch.
    pub fn next_watch(&self) -> u64
        ensures reply { result ≡ self.now.present.next_watch }
    {
        self.sources.next_watch()
    }

    /// Whether a walk leads to the row from what a channel names.
    pub fn active(&self, serial: Serial) -> bool
        ensures reply { result ≡ is_active self.now.present serial }
    {
        self.sources.is_active(serial)
    }

    /// Whether a walk leads to the row from what a channel names, or from what the preview yields.
    pub fn showing(&self, serial: Serial) -> bool
        ensures reply { result ≡ is_showing self.now.present serial }
    {
        self.sources.is_showing(serial)
    }
}
