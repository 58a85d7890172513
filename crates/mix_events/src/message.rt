//! What is said to a connection, as the text of a message.
ghost use Rattle.std.specs.Prelude.{◌≡◌, IfOk, OnOk, codes, pos};
ghost use Rattle.mix_base.specs.declared.json.Json as json;
ghost use Rattle.mix_json.specs.Growing.{more_field, more_fields, more_item};
ghost use Rattle.mix_json.specs.Trees.{obj_of};
ghost use Rattle.mix_events.specs.Events.{event_fields};
ghost use Rattle.mix_events.specs.Messages.{event_text, message_json};
ghost use Rattle.mix_events.specs.Sayable.{IsSayableEvent};
ghost use Rattle.mix_events.specs.Sayings.{IsSayable};
ghost use Rattle.mix_events.specs.Texts.{fields_of, op_of, said_json, said_text};

use crate::Said;
use crate::done::{batch, done};
use crate::event::event_fields;
use crate::hello::{hello, identified};
use mix_base::{NoMemory, Text};
use mix_json::JsonText;
use mix_model::Event;
use std::alloc::Global;

/// The number `op` of an event's message.
const OP_EVENT: i64 = 5;

/// The number `op`.
fn op_of(said: &Said) -> i64
    ensures { result ≡ pos (op_of said.now) }
{
    match said {
        Said::Hello { .. } => 0,
        Said::Identified => 2,
        Said::Event(_) => OP_EVENT,
        Said::Response(_) => 7,
        Said::BatchResponse { .. } => 9,
    }
}

fn with_fields(alloc: Global, out: &mut JsonText, said: &Said) -> Result<(), NoMemory>
    requires { IsSayable said.now }
    ensures value { OnOk result (out.new ≡ more_fields (fields_of said.now) out.old) }
{
    match said {
        Said::Hello { login } => hello(alloc, out, login),
        Said::Identified => identified(out),
        Said::Event(told) => event_fields(out, told.event()),
        Said::Response(answer) => done(out, answer),
        Said::BatchResponse { id, results } => batch(out, id, results.as_slice()),
    }
}

/// With the object `d`.
#[tactic(auto, using(crate::proofs::SaidLemmas::fields_under))]
fn with_object(alloc: Global, out: &mut JsonText, said: &Said) -> Result<(), NoMemory>
    requires { IsSayable said.now }
    ensures value { OnOk result
        (out.new ≡ more_field (codes "d") (json.Obj (obj_of (fields_of said.now))) out.old) }
{
    out.key("d")?;
    out.open()?;
    with_fields(alloc, out, said)?;
    out.close()
}

#[tactic(auto, using(crate::proofs::SaidLemmas::message_closed))]
fn with_message(alloc: Global, out: &mut JsonText, said: &Said) -> Result<(), NoMemory>
    requires { IsSayable said.now }
    ensures value { OnOk result (out.new ≡ more_item (said_json said.now) out.old) }
{
    out.open()?;
    with_object(alloc, out, said)?;
    out.int("op", op_of(said))?;
    out.close()
}

/// With the object `d` of an event.
#[tactic(auto, using(crate::proofs::SaidLemmas::event_under))]
fn with_event(out: &mut JsonText, event: &Event) -> Result<(), NoMemory>
    requires { IsSayableEvent event.now }
    ensures value { OnOk result
        (out.new ≡ more_field (codes "d") (json.Obj (obj_of (event_fields event.now))) out.old) }
{
    out.key("d")?;
    out.open()?;
    event_fields(out, event)?;
    out.close()
}

#[tactic(auto, using(crate::proofs::SaidLemmas::event_closed))]
fn with_event_message(out: &mut JsonText, event: &Event) -> Result<(), NoMemory>
    requires { IsSayableEvent event.now }
    ensures value { OnOk result
        (out.new ≡ more_item (message_json 5 (event_fields event.now)) out.old) }
{
    out.open()?;
    with_event(out, event)?;
    out.int("op", OP_EVENT)?;
    out.close()
}

/// The text of the message of an event.
#[tactic(auto, using(mix_json::proofs::TextLemmas::whole))]
pub(crate) fn event_text(alloc: Global, event: &Event) -> Result<Text, NoMemory>
    requires sayable { IsSayableEvent event.now }
    ensures value { IfOk result (λ text. text ≡ event_text event.now) }
{
    let mut out = JsonText::new(alloc)?;
    let Ok(()) = with_event_message(&mut out, event) else {
        drop(out);
        return Err(NoMemory);
    };
    out.write()
}

/// The text of a message of obs-websocket 5, in compact JSON with keys in byte order. That of an event
/// is made already, and shared.
#[tactic(auto, using(mix_json::proofs::TextLemmas::whole))]
pub fn said_text(alloc: Global, said: &Said) -> Result<Text, NoMemory>
    requires sayable { IsSayable said.now }
    ensures value { IfOk result (λ text. text ≡ said_text said.now) }
{
    if let Said::Event(told) = said {
        return told.text().share();
    }
    let mut out = JsonText::new(alloc)?;
    let Ok(()) = with_message(alloc, &mut out, said) else {
        drop(out);
        return Err(NoMemory);
    };
    out.write()
}
