//! The events of an action as they come.
ghost use Rattle.std.specs.Prelude.{◌≡◌, ◌++◌, ◌∷◌, [], All, OnOk, length};
ghost use Rattle.mix_events.specs.Sayable.{IsSayableEvent};
ghost use Rattle.mix_requests.specs.Twins.{IsTwin, queued_in};

use mix_base::NoMemory;
use mix_events::{ToldEvent, Twin, twin_of};
use mix_model::Event;
use std::alloc::Global;
use std::marker::Model;

/// The events of an action as they come, each twice: one of it waits for the others, and one is told
/// to who caused it. Contracts see the list of events.
#[derive(Drop)]
pub struct Events {
    alloc: Global,
    twins: Vec<Twin>,
}

impl Model for Events {
    ghost use Rattle.std.specs.Prelude.{List, All};
    ghost use Rattle.std.specs.Coded.{codes};
    ghost use Rattle.mix_base.specs.contracts.json.Json as json_contracts;
    ghost use Rattle.mix_model.specs.declared.event.Event.{Event};
    ghost use Rattle.mix_requests.specs.Twins.{IsTwin, queued_in};

    ghost Value = { List Event };

    ghost coded = { Prim.hlevel (codes, json_contracts.the_row.coded) };

    ghost view = { λ events. queued_in events.twins.items };

    ghost invariant = { λ events. All IsTwin events.twins.items };
}

impl Events {
    /// None so far.
    pub fn new(alloc: Global) -> Events
        ensures value { result ≡ [] }
    {
        Events {
            alloc,
            twins: Vec::new(alloc),
        }
    }

    /// An event comes after the others. Its serials are short enough for a UUID, and its numbers are
    /// whole.
    pub fn tell(&mut self, event: Event) -> Result<(), NoMemory>
        requires sayable { IsSayableEvent event }
        ensures ok { OnOk result (self.new ≡ self.old ++ event ∷ []) }
    {
        let Ok(()) = self.twins.reserve(1) else {
            drop(event);
            return Err(NoMemory);
        };
        let twin = twin_of(ToldEvent::new(self.alloc, event)?)?;
        self.twins.push_reserved(twin);
        Ok(())
    }

    /// How many there are.
    pub fn len(&self) -> usize
        ensures value { result ≡ length self.now }
    {
        self.twins.len()
    }

    /// They don't come after all.
    pub fn clear(&mut self)
        ensures value { self.new ≡ [] }
    {
        self.twins.clear();
    }

    /// The events, each twice.
    pub fn into_twins(self) -> Vec<Twin>
        ensures value { queued_in result.items ≡ self }
        ensures pairs { All IsTwin result.items }
    {
        let Events { twins, .. } = self;
        twins
    }
}
