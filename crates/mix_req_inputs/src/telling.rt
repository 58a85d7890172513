//! What is told and answered of a new input with its item.
ghost use Rattle.std.specs.Prelude.{◌≡◌, ◌<◌, ◌^◌, ◌++◌, IfOk, OnOk, is_some, true};
ghost use Rattle.mix_model.specs.Lookups.{row_of};
ghost use Rattle.mix_requests.specs.NewItems.{next_item};
ghost use Rattle.mix_req_inputs.specs.CreateInput.{input_answer, input_events};

use crate::new_input::NewInput;
use mix_base::{ItemId, Json, NoMemory, Serial};
use mix_graph::Graph;
use mix_json::Fields;
use mix_model::Event;
use mix_requests::{Events, item_count, name_of, next_item, with_uuid};
use mix_sources::settings_json;
use std::alloc::Global;

/// The new input and its item are told, and the answer is made.
pub fn tell_input(
    alloc: Global,
    graph: &Graph,
    input: &NewInput,
    events: &mut Events,
) -> Result<Json, NoMemory>
    requires serial { graph.now.present.next_serial < 4294967295 }
    requires parent { is_some (row_of graph.now.present input.now.parent) ≡ true }
    requires short { input.now.parent < 2 ^ 48 }
    ensures answer { IfOk result (λ answer. answer ≡ input_answer graph.now.present.next_serial
        (next_item graph.now.present input.now.parent)) }
    ensures told { OnOk result (events.new
        ≡ events.old ++ input_events graph.now.present input.now) }
{
    let serial = graph.next_serial();
    let item = next_item(graph, input.parent);
    let settings = settings_json(alloc, &input.settings)?;
    events.tell(Event::InputCreated {
        kind: input.kind,
        settings,
        input: input.name.share(),
        serial,
    })?;
    events.tell(Event::SceneItemCreated {
        item,
        index: item_count(graph, input.parent),
        scene: name_of(graph, input.parent),
        serial: input.parent,
        source: input.name.share(),
        source_serial: serial,
    })?;
    input_answer(alloc, serial, item)
}

/// The answer to who made an input.
#[tactic(auto, unfolding(crate::specs::CreateInput::input_answer))]
fn input_answer(alloc: Global, serial: Serial, item: ItemId) -> Result<Json, NoMemory>
    requires serial { serial < 2 ^ 48 }
    ensures value { IfOk result (λ answer. answer ≡ input_answer serial item) }
{
    let fields = with_uuid(alloc, Fields::new(alloc), "inputUuid", serial)?;
    let fields = fields.int("sceneItemId", i64::from(item.0))?;
    Ok(Json::Obj(fields.into_obj()))
}
