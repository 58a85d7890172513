//! Events on scenes.
ghost use Rattle.std.specs.Prelude.{IfSome};
ghost use Rattle.mix_events.specs.Sayable.{IsSayableEvent, IsShort};

use crate::given::{name, serial};
use mix_base::{JsonObj, Name, Serial};
use mix_model::Event;

/// The event of a type.
pub fn event(kind: &str, data: &JsonObj) -> Option<Event>
    ensures { IfSome result IsSayableEvent }
{
    if kind == "SceneNameChanged" {
        return renamed(data);
    }
    named(kind, name(data, "sceneName")?, serial(data, "sceneUuid"))
}

fn renamed(data: &JsonObj) -> Option<Event>
    ensures { IfSome result IsSayableEvent }
{
    Some(Event::SceneNameChanged {
        old: name(data, "oldSceneName")?,
        scene: name(data, "sceneName")?,
        serial: serial(data, "sceneUuid"),
    })
}

fn named(kind: &str, scene: Name, serial: Serial) -> Option<Event>
    requires { IsShort serial }
    ensures { IfSome result IsSayableEvent }
{
    if kind == "SceneCreated" {
        Some(Event::SceneCreated { scene, serial })
    } else if kind == "SceneRemoved" {
        Some(Event::SceneRemoved { scene, serial })
    } else if kind == "CurrentProgramSceneChanged" {
        Some(Event::CurrentProgramSceneChanged { scene, serial })
    } else if kind == "CurrentPreviewSceneChanged" {
        Some(Event::CurrentPreviewSceneChanged { scene, serial })
    } else {
        None
    }
}
