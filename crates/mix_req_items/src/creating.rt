//! CreateSceneItem.
ghost use Rattle.std.specs.Prelude.{◌≡◌, ◌∷◌, ◌++◌, ◌<◌, ◌^◌, [], IfOk, IsTrue, OnOk, is_some};
ghost use Rattle.std.specs.Prelude.{true};
ghost use Rattle.mix_model.specs.Causes.{item_cause};
ghost use Rattle.mix_model.specs.Edits.{item_added};
ghost use Rattle.mix_model.specs.Lookups.{row_of};
ghost use Rattle.mix_model.specs.Values.{is_place};
ghost use Rattle.mix_model.specs.WholeShape.{StudioShape};
ghost use Rattle.mix_requests.specs.NewItems.{next_item};
ghost use Rattle.mix_requests.specs.Outcomes.{DoesLast};
ghost use Rattle.mix_requests.specs.Ready.{IsReady, MayMake};
ghost use Rattle.mix_requests.specs.Refusals.{refused_by};
ghost use Rattle.mix_requests.specs.Sources.{Edits, edited_alone};
ghost use Rattle.mix_req_items.specs.CreateSceneItem.{AreEnds, create_scene_item, created_event};
ghost use Rattle.mix_req_items.specs.CreateSceneItem.{ends_sought, id_answer, plain_spec};

use crate::finding::source_sought;
use mix_base::{ItemId, Json, NoMemory, Serial, Text};
use mix_graph::Graph;
use mix_json::{Fields, opt_bool};
use mix_model::{Blend, Body, Event, ItemSpec, Notes};
use mix_requests::{
    Caller, Events, Refused, item_count, name_of, needed_fields, new_place, next_item,
    scene_sought, sought_name,
};
use mix_studio::Studio;
use std::alloc::Global;

/// The scene or group on which an item is to lie, and the source that it is to show.
#[derive(Clone, Copy)]
pub struct Ends {
    pub holder: Serial,
    pub child: Serial,
}

/// An item more, on top of a scene, that shows a source.
#[tactic(auto, unfolding(crate::specs::CreateSceneItem::create_scene_item))]
pub fn create_scene_item(
    alloc: Global,
    studio: &mut Studio,
    notes: &mut Notes,
    caller: Caller,
    body: &Body,
    events: &mut Events,
) -> Result<Option<Json>, Refused>
    requires ready { IsReady studio.old notes.old }
    requires empty { events.old ≡ [] }
    ensures does { DoesLast result studio.old studio.new notes.old notes.new events.new
        (create_scene_item studio.old.present notes.old caller body.now) }
    ensures shape { StudioShape studio.new.present }
{
    let _ = caller;
    let fields = needed_fields(body)?;
    let name = sought_name(fields, "sceneName")?;
    let source_name = sought_name(fields, "sourceName")?;
    let enabled = opt_bool(fields, "sceneItemEnabled", true)?;
    let ends = ends_sought(studio, name, source_name)?;
    let answer = tell_item(alloc, events, studio, &ends)?;
    match add_item(studio, &ends, enabled) {
        Ok(()) => Ok(Some(answer)),
        Err(refused) => {
            drop(answer);
            Err(refused)
        }
    }
}

/// The scene and the source that it is to show: 600 and 602.
#[tactic(auto, unfolding(crate::specs::CreateSceneItem::ends_sought))]
fn ends_sought(studio: &Studio, name: &Text, source_name: &Text) -> Result<Ends, u16>
    ensures value { result ≡ ends_sought studio.now.present.graph name.now source_name.now }
    ensures ends { IfOk result (AreEnds studio.now.present.graph) }
{
    let graph = studio.graph();
    graph.has_shape();
    let holder = scene_sought(graph, name)?;
    let child = source_sought(graph, source_name)?;
    Ok(Ends { holder, child })
}

/// A new item is told, and the answer is made.
pub fn tell_item(
    alloc: Global,
    events: &mut Events,
    studio: &Studio,
    ends: &Ends,
) -> Result<Json, NoMemory>
    requires ends { AreEnds studio.now.present.graph ends.now }
    requires shape { StudioShape studio.now.present }
    requires serial { studio.now.present.graph.next_serial < 4294967295 }
    ensures answer { IfOk result (λ answer. answer
        ≡ id_answer (next_item studio.now.present.graph ends.now.holder)) }
    ensures told { OnOk result (events.new ≡ events.old
        ++ created_event studio.now.present.graph ends.now.holder ends.now.child ∷ []) }
{
    let graph = studio.graph();
    tell_created(events, graph, ends.holder, ends.child)?;
    id_answer(alloc, next_item(graph, ends.holder))
}

/// A new item is told, which is to lie on top of the others.
fn tell_created(
    events: &mut Events,
    graph: &Graph,
    holder: Serial,
    child: Serial,
) -> Result<(), NoMemory>
    requires there { is_some (row_of graph.now.present holder) ≡ true }
    requires short { holder < 2 ^ 48 }
    requires child_there { is_some (row_of graph.now.present child) ≡ true }
    requires child_short { child < 2 ^ 48 }
    ensures told { OnOk result (events.new
        ≡ events.old ++ created_event graph.now.present holder child ∷ []) }
{
    events.tell(Event::SceneItemCreated {
        item: next_item(graph, holder),
        index: item_count(graph, holder),
        scene: name_of(graph, holder),
        serial: holder,
        source: name_of(graph, child),
        source_serial: child,
    })
}

/// The answer with an item's id.
#[tactic(auto, unfolding(crate::specs::CreateSceneItem::id_answer))]
fn id_answer(alloc: Global, id: ItemId) -> Result<Json, NoMemory>
    ensures value { IfOk result (λ answer. answer ≡ id_answer id) }
{
    let fields = Fields::new(alloc).int("sceneItemId", i64::from(id.0))?;
    Ok(Json::Obj(fields.into_obj()))
}

/// The item is made: 700 for a circle or too deep a nesting, 603 where there would be too much.
fn add_item(studio: &mut Studio, ends: &Ends, enabled: bool) -> Result<(), Refused>
    requires ready { MayMake studio.old }
    ensures edits { Edits result studio.old studio.new
        (refused_by (item_cause studio.old.present.graph ends.now.holder ends.now.child
        (item_added ends.now.holder ends.now.child (plain_spec enabled)
        studio.old.present.graph)))
        (edited_alone (item_added ends.now.holder ends.now.child (plain_spec enabled))
        studio.old.present) }
    ensures shape { StudioShape studio.new.present }
{
    let spec = ItemSpec {
        enabled,
        locked: false,
        place: new_place(),
        blend: Blend::Normal,
    };
    make_item(studio, ends.holder, ends.child, spec)
}

/// An item is made as it is asked to be, in an action of its own.
fn make_item(
    studio: &mut Studio,
    holder: Serial,
    child: Serial,
    spec: ItemSpec,
) -> Result<(), Refused>
    requires ready { MayMake studio.old }
    requires place { IsTrue (is_place spec.place) }
    ensures edits { Edits result studio.old studio.new
        (refused_by (item_cause studio.old.present.graph holder child
        (item_added holder child spec studio.old.present.graph)))
        (edited_alone (item_added holder child spec) studio.old.present) }
    ensures shape { StudioShape studio.new.present }
{
    let graph = studio.graph_mut();
    let made = graph.add_item(holder, child, spec);
    graph.has_shape();
    match made {
        Ok(_) => Ok(()),
        Err(fault) => Err(Refused::from(fault)),
    }
}
