//! SetCurrentProgramScene.
ghost use Rattle.std.specs.Prelude.{◌≡◌, []};
ghost use Rattle.mix_model.specs.WholeShape.{StudioShape};
ghost use Rattle.mix_requests.specs.Outcomes.{DoesLast};
ghost use Rattle.mix_requests.specs.Ready.{IsReady};
ghost use Rattle.mix_req_scenes.specs.SetCurrentProgramScene.{set_current_program_scene};

use mix_base::Json;
use mix_model::{Body, Notes};
use mix_requests::{
    Caller, Events, Refused, change_to, needed_fields, scene_sought, sought_name, tell_change,
};
use mix_studio::Studio;
use std::alloc::Global;

/// The program goes to a scene, as its transition says.
#[tactic(auto, unfolding(crate::specs::SetCurrentProgramScene::set_current_program_scene))]
pub fn set_current_program_scene(
    alloc: Global,
    studio: &mut Studio,
    notes: &mut Notes,
    caller: Caller,
    body: &Body,
    events: &mut Events,
) -> Result<Option<Json>, Refused>
    requires ready { IsReady studio.old notes.old }
    requires empty { events.old ≡ [] }
    ensures does { DoesLast result studio.old studio.new notes.old notes.new events.new
        (set_current_program_scene studio.old.present notes.old caller body.now) }
    ensures shape { StudioShape studio.new.present }
{
    let _ = (alloc, caller);
    let fields = needed_fields(body)?;
    let name = sought_name(fields, "sceneName")?;
    let scene = scene_sought(studio.graph(), name)?;
    let change = change_to(studio.bus(), scene);
    tell_change(events, studio.graph(), studio.bus().fade(), scene, change)?;
    studio.set_program(scene);
    Ok(None)
}
