//! An event that is told, with its text.
ghost use Rattle.std.specs.Prelude.{◌≡◌, IfOk};
ghost use Rattle.std.specs.Arc.{arc_value};
ghost use Rattle.mix_events.specs.Messages.{event_text};
ghost use Rattle.mix_events.specs.Sayable.{IsSayableEvent};

use crate::message::event_text;
use mix_base::{NoMemory, Text};
use mix_model::Event;
use std::alloc::Global;
use std::marker::Model;
use std::sync::Arc;

/// An event and its text.
#[derive(Drop)]
struct Spoken {
    event: Event,
    text: Text,
}

/// An event that is told. Its text is made once, and all share both to whom it is told. Contracts see
/// the event.
#[derive(Drop)]
pub struct ToldEvent {
    spoken: Arc<Spoken, Global>,
}

impl Model for ToldEvent {
    ghost use Rattle.std.specs.Prelude.{◌≡◌};
    ghost use Rattle.std.specs.Arc.{arc_value};
    ghost use Rattle.std.specs.Coded.{codes};
    ghost use Rattle.mix_base.specs.contracts.json.Json as json_contracts;
    ghost use Rattle.mix_model.specs.declared.event.Event.{Event};
    ghost use Rattle.mix_events.specs.Messages.{event_text};
    ghost use Rattle.mix_events.specs.Sayable.{IsSayableEvent};

    ghost Value = { Event };

    ghost coded = { Prim.hlevel (codes, json_contracts.the_row.coded) };

    ghost view = { λ told. (arc_value told.spoken).event };

    ghost invariant = { λ told.
        ((arc_value told.spoken).text ≡ event_text (arc_value told.spoken).event)
        × IsSayableEvent (arc_value told.spoken).event };
}

impl ToldEvent {
    /// An event whose serials are short enough for a UUID, and whose numbers are whole.
    pub fn new(alloc: Global, event: Event) -> Result<ToldEvent, NoMemory>
        requires sayable { IsSayableEvent event }
        ensures value { IfOk result (λ told. told ≡ event) }
    {
        let Ok(text) = event_text(alloc, &event) else {
            drop(event);
            return Err(NoMemory);
        };
        Ok(ToldEvent {
            spoken: Arc::new(alloc, Spoken { event, text })?,
        })
    }

    /// The same event once more, with the same text.
    pub fn share(&self) -> Result<ToldEvent, NoMemory>
        ensures value { IfOk result (λ told. told ≡ self.now) }
    {
        Ok(ToldEvent {
            spoken: Arc::try_clone(&self.spoken)?,
        })
    }

    /// The event.
    pub fn event(&self) -> &Event
        ensures value { result.now ≡ self.now }
        ensures sayable { IsSayableEvent self.now }
    {
        &self.spoken.event
    }

    /// The text of its message.
    pub fn text(&self) -> &Text
        ensures value { result.now ≡ event_text self.now }
    {
        &self.spoken.text
    }
}
