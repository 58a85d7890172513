//! CreateScene.
ghost use Rattle.std.specs.Prelude.{◌≡◌, ◌<◌, ◌^◌, [], IfOk};
ghost use Rattle.mix_model.specs.WholeShape.{StudioShape};
ghost use Rattle.mix_requests.specs.Outcomes.{DoesLast};
ghost use Rattle.mix_requests.specs.Ready.{IsReady};
ghost use Rattle.mix_req_scenes.specs.CreateScene.{create_scene, scene_answer};

use mix_base::{Json, NoMemory, Serial};
use mix_json::Fields;
use mix_model::{Body, Event, Notes};
use mix_requests::{Caller, Events, Refused, make_scene, needed_fields, new_name, with_uuid};
use mix_studio::Studio;
use std::alloc::Global;

/// A scene more, last in the registry.
#[tactic(auto, unfolding(crate::specs::CreateScene::create_scene))]
pub fn create_scene(
    alloc: Global,
    studio: &mut Studio,
    notes: &mut Notes,
    caller: Caller,
    body: &Body,
    events: &mut Events,
) -> Result<Option<Json>, Refused>
    requires ready { IsReady studio.old notes.old }
    requires empty { events.old ≡ [] }
    ensures does { DoesLast result studio.old studio.new notes.old notes.new events.new
        (create_scene studio.old.present notes.old caller body.now) }
    ensures shape { StudioShape studio.new.present }
{
    let _ = caller;
    let fields = needed_fields(body)?;
    let name = new_name(fields, "sceneName")?;
    let serial = studio.graph().next_serial();
    events.tell(Event::SceneCreated {
        scene: name.share(),
        serial,
    })?;
    let answer = scene_answer(alloc, serial)?;
    match make_scene(studio, name) {
        Ok(()) => Ok(Some(answer)),
        Err(refused) => {
            drop(answer);
            Err(refused)
        }
    }
}

/// The answer to who made a scene.
#[tactic(auto, unfolding(crate::specs::CreateScene::scene_answer))]
fn scene_answer(alloc: Global, serial: Serial) -> Result<Json, NoMemory>
    requires serial { serial < 2 ^ 48 }
    ensures value { IfOk result (λ answer. answer ≡ scene_answer serial) }
{
    let fields = with_uuid(alloc, Fields::new(alloc), "sceneUuid", serial)?;
    Ok(Json::Obj(fields.into_obj()))
}
