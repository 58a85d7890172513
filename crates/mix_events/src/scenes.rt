//! The fields of the events on scenes.
ghost use Rattle.std.specs.Prelude.{◌≡◌, OnOk};
ghost use Rattle.mix_json.specs.Growing.{more_fields};
ghost use Rattle.mix_events.specs.Sayable.{IsShort};
ghost use Rattle.mix_events.specs.SceneEvents.{scene_came, scene_fields, scene_renamed};

use crate::uuids::with_uuid;
use mix_base::{Name, NoMemory, Serial};
use mix_json::JsonText;

/// With the name and the UUID of a scene or group.
#[tactic(auto, unfolding(crate::specs::SceneEvents::scene_fields))]
pub fn with_scene(out: &mut JsonText, scene: &Name, serial: Serial) -> Result<(), NoMemory>
    requires { IsShort serial }
    ensures value { OnOk result (out.new ≡ more_fields (scene_fields scene.now serial) out.old) }
{
    out.text("sceneName", scene.as_str())?;
    with_uuid(out, "sceneUuid", serial)
}

#[tactic(auto, unfolding(crate::specs::SceneEvents::scene_came))]
pub fn came(out: &mut JsonText, scene: &Name, serial: Serial) -> Result<(), NoMemory>
    requires { IsShort serial }
    ensures value { OnOk result (out.new ≡ more_fields (scene_came scene.now serial) out.old) }
{
    out.truth("isGroup", false)?;
    with_scene(out, scene, serial)
}

#[tactic(auto, unfolding(crate::specs::SceneEvents::scene_renamed))]
pub fn renamed(out: &mut JsonText, old: &Name, scene: &Name, serial: Serial) -> Result<(), NoMemory>
    requires { IsShort serial }
    ensures value { OnOk result
        (out.new ≡ more_fields (scene_renamed old.now scene.now serial) out.old) }
{
    out.text("oldSceneName", old.as_str())?;
    with_scene(out, scene, serial)
}
