//! The texts and the bits of events, as another program gave them.
ghost use Rattle.std.specs.Prelude.{IfOk, IfSome};
ghost use Rattle.mix_events.specs.Sayable.{IsSayableEvent};

use crate::{inputs, items, others, scenes};
use mix_base::{JsonObj, NoMemory};
use mix_events::{Said, ToldEvent, intent, said_text};
use mix_json::{need_int, need_obj};
use mix_model::Event;
use mix_tables::{Table, cell, copied, object};
use std::alloc::Global;

/// Cells: the type of an event, and its text.
pub struct Events;

impl Table for Events {
    fn found(&self, alloc: Global, line: &str) -> Result<String, NoMemory> {
        match event_in(alloc, line)? {
            Some(event) => event_text(alloc, event),
            None => Ok(String::from_str(alloc, "no event")?),
        }
    }

    fn wanted<'a>(&self, line: &'a str) -> &'a str {
        cell(line, 1)
    }
}

/// The same cells: the number of `eventIntent` is the event's bit.
pub struct Intents;

impl Table for Intents {
    fn found(&self, alloc: Global, line: &str) -> Result<String, NoMemory> {
        match event_in(alloc, line)? {
            Some(event) => {
                let number = intent(&event);
                drop(event);
                Ok(format!(in alloc; "{number}")?)
            }
            None => Ok(String::from_str(alloc, "no event")?),
        }
    }

    fn wanted<'a>(&self, line: &'a str) -> &'a str {
        let (_, rest) = line.split_once("\"eventIntent\":").unwrap_or(("", ""));
        let (number, _) = rest.split_once(',').unwrap_or((rest, ""));
        number
    }
}

fn event_text(alloc: Global, event: Event) -> Result<String, NoMemory>
    requires { IsSayableEvent event }
{
    let said = Said::Event(ToldEvent::new(alloc, event)?);
    let text = said_text(alloc, &said);
    drop(said);
    copied(alloc, text?)
}

/// The event of a line: its type, and the fields that its text has.
fn event_in(alloc: Global, line: &str) -> Result<Option<Event>, NoMemory>
    ensures { IfOk result (λ event. IfSome event IsSayableEvent) }
{
    let Some(message) = object(alloc, cell(line, 1))? else {
        return Ok(None);
    };
    let event = event_of(alloc, cell(line, 0), &message);
    drop(message);
    event
}

fn event_of(alloc: Global, kind: &str, message: &JsonObj) -> Result<Option<Event>, NoMemory>
    ensures { IfOk result (λ event. IfSome event IsSayableEvent) }
{
    let Ok(d) = need_obj(message, "d") else {
        return Ok(None);
    };
    let Ok(data) = need_obj(d, "eventData") else {
        return Ok(None);
    };
    match need_int(d, "eventIntent") {
        Ok(4) => Ok(scenes::event(kind, data)),
        Ok(8) => inputs::event(alloc, kind, data),
        Ok(131072 | 262144) => Ok(inputs::state(kind, data)),
        Ok(128 | 524288) => items::event(alloc, kind, data),
        _ => others::event(alloc, kind, data),
    }
}
