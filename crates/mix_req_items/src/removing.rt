//! RemoveSceneItem.
ghost use Rattle.std.specs.Prelude.{◌≡◌, ◌∷◌, ◌++◌, ◌<◌, ◌^◌, [], OnOk, is_some, true};
ghost use Rattle.mix_model.specs.Lookups.{row_of};
ghost use Rattle.mix_model.specs.WholeShape.{StudioShape};
ghost use Rattle.mix_requests.specs.Outcomes.{DoesLast};
ghost use Rattle.mix_requests.specs.Ready.{IsReady};
ghost use Rattle.mix_req_items.specs.RemoveSceneItem.{remove_scene_item, removed_event};

use crate::changing::{Change, change_item};
use crate::finding::found_item;
use crate::found::Found;
use mix_base::{Json, NoMemory};
use mix_graph::Graph;
use mix_model::{Body, Event, Notes};
use mix_requests::{Caller, Events, Refused, name_of};
use mix_studio::Studio;
use std::alloc::Global;

/// An item less.
#[tactic(auto, unfolding(crate::specs::RemoveSceneItem::remove_scene_item))]
pub fn remove_scene_item(
    alloc: Global,
    studio: &mut Studio,
    notes: &mut Notes,
    caller: Caller,
    body: &Body,
    events: &mut Events,
) -> Result<Option<Json>, Refused>
    requires ready { IsReady studio.old notes.old }
    requires empty { events.old ≡ [] }
    ensures does { DoesLast result studio.old studio.new notes.old notes.new events.new
        (remove_scene_item studio.old.present notes.old caller body.now) }
    ensures shape { StudioShape studio.new.present }
{
    let _ = (alloc, caller);
    let found = found_item(studio, body)?;
    tell_removed(events, studio.graph(), &found)?;
    change_item(studio, &found, Change::Removed);
    Ok(None)
}

/// It is told.
fn tell_removed(events: &mut Events, graph: &Graph, found: &Found) -> Result<(), NoMemory>
    requires there { is_some (row_of graph.now.present found.now.holder) ≡ true }
    requires short { found.now.holder < 2 ^ 48 }
    requires child_there { is_some (row_of graph.now.present found.now.item.child) ≡ true }
    requires child_short { found.now.item.child < 2 ^ 48 }
    ensures told { OnOk result (events.new
        ≡ events.old ++ removed_event graph.now.present found.now ∷ []) }
{
    events.tell(Event::SceneItemRemoved {
        item: found.item.id,
        scene: name_of(graph, found.holder),
        serial: found.holder,
        source: name_of(graph, found.item.child),
        source_serial: found.item.child,
    })
}
