//! Requests of all types: which crate does each, and what it is answered.
ghost use Rattle.std.specs.Prelude.{◌≡◌, [], option_map};
ghost use Rattle.mix_model.specs.WholeShape.{StudioShape};
ghost use Rattle.mix_requests.specs.Outcomes.{DoesLine};
ghost use Rattle.mix_requests.specs.Ready.{IsReady};
ghost use Rattle.mix_requests.specs.Table.{type_of};
ghost use Rattle.mix_engine.specs.Requests.{DoesAsk, alone, line_asked, line_named, most_named};

use mix_base::{ConnId, Json, NoMemory};
use mix_model::{Ask, Body, Done, Notes};
use mix_req_inputs as inputs;
use mix_req_items as items;
use mix_req_outputs as outputs;
use mix_req_scenes as scenes;
use mix_requests::{Caller, Events, Mode, Refused, RequestType, done, type_text};
use mix_studio::Studio;
use std::alloc::Global;

/// The request that the type of this names; none where it has none.
pub fn named_by(ask: &Ask) -> Option<RequestType>
    ensures value { result ≡ option_map type_of ask.now.kind }
{
    match &ask.kind {
        None => None,
        Some(kind) => Some(RequestType::of_text(kind.as_str())),
    }
}

/// The most events of a request, those of the settling aside.
pub fn most_events(request: Option<RequestType>) -> u32
    ensures value { result ≡ most_named request }
{
    match request {
        Some(RequestType::Scene(request)) => scenes::most_events(request),
        Some(RequestType::Item(request)) => items::most_events(request),
        Some(RequestType::Input(request)) => inputs::most_events(request),
        Some(RequestType::Output(request)) => outputs::most_events(request),
        Some(RequestType::Unknown) | None => 0,
    }
}

/// Does a request of a connection, and nothing where it isn't built. What it tells comes to `events`,
/// which is empty before.
pub fn do_request(
    alloc: Global,
    studio: &mut Studio,
    notes: &mut Notes,
    conn: ConnId,
    request: Option<RequestType>,
    ask: Ask,
    events: &mut Events,
) -> Result<Option<Done>, NoMemory>
    requires ready { IsReady studio.old notes.old }
    requires named { request ≡ option_map type_of ask.kind }
    requires empty { events.old ≡ [] }
    ensures does { DoesAsk result studio.old studio.new notes.old notes.new events.new ask
        (line_asked studio.old.present notes.old (alone conn) ask) }
    ensures shape { StudioShape studio.new.present }
{
    let Ask { kind, id, body } = ask;
    let Ok(kind) = type_text(alloc, kind) else {
        drop(id);
        drop(body);
        return Err(NoMemory);
    };
    let caller = Caller {
        conn,
        mode: Mode::Single,
    };
    let found = answer(alloc, studio, notes, caller, request, &body, events);
    drop(body);
    match found {
        Some(Ok(response)) => Ok(Some(done(kind, id, Ok(response)))),
        Some(Err(Refused::Status(status))) => {
            events.clear();
            Ok(Some(done(kind, id, Err(status))))
        }
        Some(Err(Refused::NoMemory)) => {
            drop(kind);
            drop(id);
            Err(NoMemory)
        }
        None => {
            drop(kind);
            drop(id);
            Ok(None)
        }
    }
}

/// Has a request done by the crate that has it; nothing is done where it isn't built.
fn answer(
    alloc: Global,
    studio: &mut Studio,
    notes: &mut Notes,
    caller: Caller,
    request: Option<RequestType>,
    body: &Body,
    events: &mut Events,
) -> Option<Result<Option<Json>, Refused>>
    requires ready { IsReady studio.old notes.old }
    requires empty { events.old ≡ [] }
    ensures does { DoesLine result studio.old studio.new notes.old notes.new events.new
        (line_named studio.old.present notes.old caller body.now request) }
    ensures shape { StudioShape studio.new.present }
{
    match request {
        None => Some(Err(Refused::Status(203))),
        Some(RequestType::Scene(request)) => {
            scenes::answer(alloc, studio, notes, caller, request, body, events)
        }
        Some(RequestType::Item(request)) => {
            items::answer(alloc, studio, notes, caller, request, body, events)
        }
        Some(RequestType::Input(request)) => {
            inputs::answer(alloc, studio, notes, caller, request, body, events)
        }
        Some(RequestType::Output(request)) => {
            outputs::answer(alloc, studio, notes, caller, request, body, events)
        }
        Some(RequestType::Unknown) => Some(Err(Refused::Status(204))),
    }
}
