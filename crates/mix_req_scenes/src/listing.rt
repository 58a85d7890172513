//! GetSceneList.
ghost use Rattle.std.specs.Prelude.{◌≡◌, ◌<◌, ◌^◌, [], IfOk, IfSome};
ghost use Rattle.mix_json.specs.Trees.{obj_of, put_fields};
ghost use Rattle.mix_model.specs.Walks.{usable_preview};
ghost use Rattle.mix_model.specs.WholeShape.{StudioShape};
ghost use Rattle.mix_requests.specs.Outcomes.{DoesLast};
ghost use Rattle.mix_requests.specs.Ready.{IsReady};
ghost use Rattle.mix_req_scenes.specs.GetSceneList.{entry_fields, get_scene_list, preview_fields};
ghost use Rattle.mix_req_scenes.specs.GetSceneList.{program_fields, scene_entries, scene_list_answer};
ghost use Rattle.mix_req_scenes.specs.GetSceneList.{scenes_fields};

use mix_base::{Json, NoMemory, Serial};
use mix_graph::Graph;
use mix_json::{Fields, Items};
use mix_model::{Body, Notes};
use mix_requests::{Caller, Events, Refused, with_named};
use mix_studio::Studio;
use std::alloc::Global;

/// The preview, the program, and all scenes in the order of the registry.
#[tactic(auto, unfolding(crate::specs::GetSceneList::get_scene_list))]
pub fn get_scene_list(
    alloc: Global,
    studio: &mut Studio,
    notes: &mut Notes,
    caller: Caller,
    body: &Body,
    events: &mut Events,
) -> Result<Option<Json>, Refused>
    requires ready { IsReady studio.old notes.old }
    requires empty { events.old ≡ [] }
    ensures does { DoesLast result studio.old studio.new notes.old notes.new events.new
        (get_scene_list studio.old.present notes.old caller body.now) }
    ensures shape { StudioShape studio.new.present }
{
    let _ = caller;
    let answer = scene_list_answer(alloc, studio)?;
    Ok(Some(answer))
}

/// The answer.
fn scene_list_answer(alloc: Global, studio: &Studio) -> Result<Json, NoMemory>
    requires shape { StudioShape studio.now.present }
    requires serial { studio.now.present.graph.next_serial < 4294967295 }
    ensures value { IfOk result (λ answer. answer ≡ scene_list_answer studio.now.present) }
{
    let graph = studio.graph();
    let fields = with_preview(alloc, Fields::new(alloc), graph)?;
    let fields = with_program(alloc, fields, graph, studio.bus().target())?;
    let fields = with_scenes(alloc, fields, graph)?;
    Ok(Json::Obj(fields.into_obj()))
}

/// With the preview, and null where none can be used.
#[tactic(auto, unfolding(crate::specs::GetSceneList::preview_fields))]
fn with_preview(alloc: Global, fields: Fields, graph: &Graph) -> Result<Fields, NoMemory>
    requires serial { graph.now.present.next_serial < 4294967295 }
    ensures value { IfOk result
        (λ all. all ≡ put_fields (preview_fields graph.now.present) fields) }
{
    match usable_preview(graph) {
        Some(scene) => with_named(
            alloc,
            fields,
            graph,
            "currentPreviewSceneName",
            "currentPreviewSceneUuid",
            scene,
        ),
        None => fields
            .null("currentPreviewSceneName")?
            .null("currentPreviewSceneUuid"),
    }
}

/// The preview, where it is a scene of the registry.
fn usable_preview(graph: &Graph) -> Option<Serial>
    requires serial { graph.now.present.next_serial < 4294967295 }
    ensures value { result ≡ usable_preview graph.now.present }
    ensures short { IfSome result (λ x. x < 2 ^ 48) }
{
    graph.has_shape();
    let scene = graph.preview()?;
    if graph.named(scene) {
        Some(scene)
    } else {
        None
    }
}

/// With the target of the program.
#[tactic(auto, unfolding(crate::specs::GetSceneList::program_fields))]
fn with_program(
    alloc: Global,
    fields: Fields,
    graph: &Graph,
    program: Serial,
) -> Result<Fields, NoMemory>
    requires program { program < 2 ^ 48 }
    ensures value { IfOk result
        (λ all. all ≡ put_fields (program_fields graph.now.present program) fields) }
{
    with_named(
        alloc,
        fields,
        graph,
        "currentProgramSceneName",
        "currentProgramSceneUuid",
        program,
    )
}

/// With all scenes.
fn with_scenes(alloc: Global, fields: Fields, graph: &Graph) -> Result<Fields, NoMemory>
    requires serial { graph.now.present.next_serial < 4294967295 }
    ensures value { IfOk result
        (λ all. all ≡ put_fields (scenes_fields graph.now.present) fields) }
{
    let Ok(entries) = scene_entries(alloc, graph) else {
        drop(fields);
        return Err(NoMemory);
    };
    fields.list("scenes", entries)
}

/// All scenes in the order of the registry.
fn scene_entries(alloc: Global, graph: &Graph) -> Result<Items, NoMemory>
    requires serial { graph.now.present.next_serial < 4294967295 }
    ensures value { IfOk result
        (λ items. items ≡ scene_entries graph.now.present 0 graph.now.present.scenes) }
{
    graph.has_shape();
    let mut items = Items::new(alloc);
    let mut index = 0;
    'scenes: while let Some(serial) = graph.scene_at(index) {
        let Ok(entry) = scene_entry(alloc, graph, index, serial) else {
            drop(items);
            return Err(NoMemory);
        };
        let Ok(()) = items.push_obj(entry) else {
            drop(items);
            return Err(NoMemory);
        };
        index += 1;
    }
    Ok(items)
}

/// A scene with its place in the list.
fn scene_entry(alloc: Global, graph: &Graph, index: u32, serial: Serial) -> Result<Fields, NoMemory>
    requires serial { serial < 2 ^ 48 }
    ensures value { IfOk result (λ fields. fields
        ≡ obj_of (entry_fields graph.now.present index serial)) }
{
    let fields = Fields::new(alloc).int("sceneIndex", i64::from(index))?;
    with_named(alloc, fields, graph, "sceneName", "sceneUuid", serial)
}
