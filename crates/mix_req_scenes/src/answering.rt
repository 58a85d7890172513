//! What is done about a request on scenes.
ghost use Rattle.std.specs.Prelude.{◌≡◌, [], IfSome};
ghost use Rattle.mix_model.specs.WholeShape.{StudioShape};
ghost use Rattle.mix_requests.specs.Outcomes.{DoesLine};
ghost use Rattle.mix_requests.specs.Ready.{IsReady};
ghost use Rattle.mix_req_scenes.specs.Scenes.{most_events, scene_line};

use crate::changing::set_current_program_scene;
use crate::creating::create_scene;
use crate::listing::get_scene_list;
use mix_base::Json;
use mix_model::{Body, Notes};
use mix_requests::{Caller, Events, Refused, SceneRequest};
use mix_studio::Studio;
use std::alloc::Global;

/// Does a request on scenes, and nothing where it isn't built. What it tells comes to `events`, which is
/// empty before; where it is refused these don't count.
pub fn answer(
    alloc: Global,
    studio: &mut Studio,
    notes: &mut Notes,
    caller: Caller,
    request: SceneRequest,
    body: &Body,
    events: &mut Events,
) -> Option<Result<Option<Json>, Refused>>
    requires ready { IsReady studio.old notes.old }
    requires empty { events.old ≡ [] }
    ensures does { DoesLine result studio.old studio.new notes.old notes.new events.new
        (scene_line studio.old.present notes.old caller body.now request) }
    ensures shape { StudioShape studio.new.present }
{
    match request {
        SceneRequest::CreateScene => Some(create_scene(alloc, studio, notes, caller, body, events)),
        SceneRequest::GetSceneList => {
            Some(get_scene_list(alloc, studio, notes, caller, body, events))
        }
        SceneRequest::SetCurrentProgramScene => Some(set_current_program_scene(
            alloc, studio, notes, caller, body, events,
        )),
        SceneRequest::GetCurrentPreviewScene
        | SceneRequest::GetCurrentProgramScene
        | SceneRequest::GetGroupList
        | SceneRequest::GetSourceActive
        | SceneRequest::RemoveScene
        | SceneRequest::SetCurrentPreviewScene
        | SceneRequest::SetSceneName => None,
    }
}

/// The most events of a request of this type, those of the settling aside.
pub fn most_events(request: SceneRequest) -> u32
    ensures value { result ≡ most_events request }
{
    match request {
        SceneRequest::CreateScene => 1,
        SceneRequest::SetCurrentProgramScene => 4,
        _ => 0,
    }
}
