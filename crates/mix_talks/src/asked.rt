//! What a message asks for, and what mask a session has.
use crate::hearing::{Situations, fresh, hear};
use mix_base::{NoMemory, Text};
use mix_model::{Ask, BatchAsk, Body};
use mix_session::{Heard, Session};
use mix_tables::{Table, cell, quoted};
use std::alloc::Global;

/// Cells: what an identified connection asks for, and its message.
#[derive(Drop)]
pub struct Asked<'a>(pub &'a Situations);

impl Table for Asked<'_> {
    fn found(&self, alloc: Global, line: &str) -> Result<String, NoMemory> {
        let heard = self.0.hear(alloc, cell(line, 1))?;
        let found = asked_for(alloc, &heard);
        drop(heard);
        found
    }
}

fn asked_for(alloc: Global, heard: &Heard) -> Result<String, NoMemory> {
    match heard {
        Heard::Ask(ask) => request(alloc, ask),
        Heard::Batch(batch) => batch_text(alloc, batch),
        Heard::Say { .. } | Heard::Close(_) => Ok(String::from_str(alloc, "nothing")?),
    }
}

fn request(alloc: Global, ask: &Ask) -> Result<String, NoMemory> {
    let id = quoted_or_none(alloc, &ask.id)?;
    let kind = quoted_or_none(alloc, &ask.kind)?;
    let body = body_word(&ask.body);
    Ok(format!(in alloc; "request {id} of {kind} with {body}")?)
}

fn quoted_or_none(alloc: Global, text: &Option<Text>) -> Result<String, NoMemory> {
    match text {
        Some(text) => quoted(alloc, text),
        None => Ok(String::from_str(alloc, "none")?),
    }
}

fn body_word(body: &Body) -> &'static str {
    match body {
        Body::Absent => "nothing",
        Body::Fields(_) => "fields",
        Body::Wrong => "no object",
    }
}

fn batch_text(alloc: Global, batch: &BatchAsk) -> Result<String, NoMemory> {
    let id = quoted(alloc, &batch.id)?;
    let halt = if batch.halt { "halting" } else { "going on" };
    let by = if batch.by_frame { "frame" } else { "clock" };
    let count = batch.asks.as_slice().len();
    Ok(format!(in alloc; "batch {id} {halt} by {by} of {count}")?)
}

/// Cells: the mask that a session has once it has heard the messages that follow, or `none`.
pub struct Masks;

impl Table for Masks {
    fn found(&self, alloc: Global, line: &str) -> Result<String, NoMemory> {
        let mut session = fresh(alloc)?;
        let heard = take_all(alloc, &mut session, line);
        let mask = session.mask();
        drop(session);
        heard?;
        match mask {
            Some(mask) => Ok(format!(in alloc; "{mask}")?),
            None => Ok(String::from_str(alloc, "none")?),
        }
    }
}

fn take_all(alloc: Global, session: &mut Session, line: &str) -> Result<(), NoMemory> {
    for message in line.split('\t').skip(1) {
        let heard = hear(alloc, session, message)?;
        session.take(&heard);
        drop(heard);
    }
    Ok(())
}
