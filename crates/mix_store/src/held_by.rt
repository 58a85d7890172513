//! Holds and watches of the sources.
ghost use Rattle.std.specs.Prelude.{◌≡◌, ◌<◌, ◌==◌, IfOk, OnOk, OnErr, filter, find, not, option_map};
ghost use Rattle.std.specs.Prelude.{option_copied};
ghost use Rattle.std.specs.List.{list_any};
ghost use Rattle.mix_model.specs.Walks.{upgrade};
ghost use Rattle.mix_model.specs.Causes.{hold_cause, watch_cause};
ghost use Rattle.mix_model.specs.Edits.{hold_made, watch_made, hold_released, watch_dropped};
ghost use Rattle.mix_model.specs.Sets.{has};
ghost use Rattle.mix_model.specs.Edits.{frame_released, let_go, preview_set};
ghost use Rattle.mix_shape.specs.Refused.{RefusedBy};

use crate::kept::{Holding, InFlight, Watching};
use crate::sources::Sources;
use mix_base::Serial;
use mix_model::GraphFault;

fn has_hold_id(holds: &[Holding], id: u64) -> bool
    ensures { result ≡ list_any (λ h. h.id == id) holds.now }
{
    holds.iter().any(|hold| hold.id == id)
}

fn has_watch_id(watches: &[Watching], id: u64) -> bool
    ensures { result ≡ list_any (λ w. w.id == id) watches.now }
{
    watches.iter().any(|watch| watch.id == id)
}

fn has_number(frames: &[InFlight], number: u64) -> bool
    ensures { result ≡ list_any (λ f. f.number == number) frames.now }
{
    frames.iter().any(|frame| frame.number == number)
}

fn watch_of(watches: &[Watching], id: u64) -> Option<&Watching>
    ensures { option_copied result ≡ find (λ w. w.id == id) watches.now }
{
    watches.iter().find(|watch| watch.id == id)
}

fn is_among(ids: &[u64], id: u64) -> bool
    ensures { result ≡ has id ids.now }
{
    ids.iter().any(|other| *other == id)
}

/// Takes out the holds of these ids.
fn take_holds(holds: &mut Vec<Holding>, ids: &[u64])
    ensures { holds.new.items ≡ filter (λ h. not (has h.id ids.now)) holds.old.items }
{
    holds.retain(|hold| !is_among(ids, hold.id));
}

/// Takes out the watches of these ids.
fn take_watches(watches: &mut Vec<Watching>, ids: &[u64])
    ensures { watches.new.items ≡ filter (λ w. not (has w.id ids.now)) watches.old.items }
{
    watches.retain(|watch| !is_among(ids, watch.id));
}

/// Takes out the holds of this id.
fn take_hold(holds: &mut Vec<Holding>, id: u64)
    ensures { holds.new.items ≡ filter (λ h. not (h.id == id)) holds.old.items }
{
    holds.retain(|hold| hold.id != id);
}

/// Takes out the watches of this id.
fn take_watch(watches: &mut Vec<Watching>, id: u64)
    ensures { watches.new.items ≡ filter (λ w. not (w.id == id)) watches.old.items }
{
    watches.retain(|watch| watch.id != id);
}

/// Takes out the frames of this number.
fn take_frame(frames: &mut Vec<InFlight>, number: u64)
    ensures { frames.new.items ≡ filter (λ f. not (f.number == number)) frames.old.items }
{
    frames.retain(|frame| frame.number != number);
}

impl Sources {
    #[tactic(auto, unfolding(mix_model::specs::Causes::hold_cause, mix_model::specs::Edits::hold_made))]
    pub fn hold(&mut self, serial: Serial) -> Result<u64, GraphFault>
        requires drawn { self.old.next_hold < 4294967295 }
        ensures reply { IfOk result (λ id. id ≡ self.old.next_hold) }
        ensures ok { OnOk result (self.new ≡ hold_made serial self.old) }
        ensures err { OnErr result (self.new ≡ self.old) }
        ensures refused { RefusedBy (hold_cause self.old serial) result }
    {
        if !self.is_named(serial) {
            return Err(GraphFault::NotFound);
        }
        if self.holds.len() >= 256 {
            return Err(GraphFault::TooMany { limit: 256 });
        }
        let id = self.next_hold;
        if self.holds.push(Holding { id, serial }).is_err() {
            return Err(GraphFault::NoMemory);
        }
        self.next_hold += 1;
        Ok(id)
    }

    #[tactic(auto, unfolding(mix_model::specs::Causes::watch_cause, mix_model::specs::Edits::watch_made))]
    pub fn watch(&mut self, serial: Serial) -> Result<u64, GraphFault>
        requires drawn { self.old.next_watch < 4294967295 }
        ensures reply { IfOk result (λ id. id ≡ self.old.next_watch) }
        ensures ok { OnOk result (self.new ≡ watch_made serial self.old) }
        ensures err { OnErr result (self.new ≡ self.old) }
        ensures refused { RefusedBy (watch_cause self.old serial) result }
    {
        if !self.is_named(serial) {
            return Err(GraphFault::NotFound);
        }
        if self.watches.len() >= 256 {
            return Err(GraphFault::TooMany { limit: 256 });
        }
        let id = self.next_watch;
        if self.watches.push(Watching { id, serial }).is_err() {
            return Err(GraphFault::NoMemory);
        }
        self.next_watch += 1;
        Ok(id)
    }

    pub fn has_hold(&self, id: u64) -> bool
        ensures { result ≡ list_any (λ h. h.id == id) self.now.holds }
    {
        has_hold_id(self.holds.as_slice(), id)
    }

    pub fn has_watch(&self, id: u64) -> bool
        ensures { result ≡ list_any (λ w. w.id == id) self.now.watches }
    {
        has_watch_id(self.watches.as_slice(), id)
    }

    pub fn has_frame(&self, number: u64) -> bool
        ensures { result ≡ list_any (λ f. f.number == number) self.now.frames }
    {
        has_number(self.frames.as_slice(), number)
    }

    #[tactic(auto, unfolding(mix_model::specs::Edits::hold_released))]
    pub fn release_hold(&mut self, id: u64)
        ensures { self.new ≡ hold_released id self.old }
    {
        take_hold(&mut self.holds, id);
    }

    #[tactic(auto, unfolding(mix_model::specs::Edits::watch_dropped))]
    pub fn drop_watch(&mut self, id: u64)
        ensures { self.new ≡ watch_dropped id self.old }
    {
        take_watch(&mut self.watches, id);
    }

    #[tactic(auto, unfolding(mix_model::specs::Edits::let_go))]
    pub fn let_go(&mut self, holds: &[u64], watches: &[u64])
        ensures { self.new ≡ let_go holds.now watches.now self.old }
    {
        take_holds(&mut self.holds, holds);
        take_watches(&mut self.watches, watches);
    }

    #[tactic(auto, unfolding(mix_model::specs::Edits::frame_released))]
    pub fn release_frame(&mut self, number: u64)
        ensures { self.new ≡ frame_released number self.old }
    {
        take_frame(&mut self.frames, number);
    }

    #[tactic(auto, unfolding(mix_model::specs::Edits::preview_set))]
    pub fn set_preview(&mut self, to: Option<Serial>)
        ensures { self.new ≡ preview_set to self.old }
    {
        self.preview = to;
    }

    /// What a watch yields.
    pub fn query(&self, watch: u64) -> Option<Option<Serial>>
        ensures { result ≡ option_map (λ w. upgrade self.now w.serial)
            (find (λ w. w.id == watch) self.now.watches) }
    {
        match watch_of(self.watches.as_slice(), watch) {
            Some(watch) => Some(self.upgrade(watch.serial)),
            None => None,
        }
    }

    pub fn next_hold(&self) -> u64
        ensures { result ≡ self.now.next_hold }
    {
        self.next_hold
    }

    pub fn next_watch(&self) -> u64
        ensures { result ≡ self.now.next_watch }
    {
        self.next_watch
    }
}
