//! Events on items.
ghost use Rattle.std.specs.Prelude.{IfOk, IfSome};
ghost use Rattle.mix_events.specs.Sayable.{IsSayableEvent, IsShort};

use crate::given::{count, item, name, serial, truth, whole};
use mix_base::{ItemId, Json, JsonList, JsonObj, Name, NoMemory, Serial};
use mix_json::need_obj;
use mix_model::{Event, IdList, Place};
use std::alloc::Global;

/// The event of a type.
pub fn event(alloc: Global, kind: &str, data: &JsonObj) -> Result<Option<Event>, NoMemory>
    ensures { IfOk result (λ event. IfSome event IsSayableEvent) }
{
    if kind == "SceneItemListReindexed" {
        reindexed(alloc, data)
    } else if kind == "SceneItemCreated" {
        Ok(created(data))
    } else if kind == "SceneItemRemoved" {
        Ok(removed(data))
    } else if kind == "SceneItemTransformChanged" {
        Ok(transformed(data))
    } else {
        Ok(state(kind, data))
    }
}

fn reindexed(alloc: Global, data: &JsonObj) -> Result<Option<Event>, NoMemory>
    ensures { IfOk result (λ event. IfSome event IsSayableEvent) }
{
    let Some(scene) = name(data, "sceneName") else {
        return Ok(None);
    };
    Ok(Some(Event::SceneItemListReindexed {
        items: ids_in(alloc, data)?,
        scene,
        serial: serial(data, "sceneUuid"),
    }))
}

fn ids_in(alloc: Global, data: &JsonObj) -> Result<IdList, NoMemory> {
    match data.get("sceneItems") {
        Some(Json::List(items)) => ids(alloc, items),
        _ => Ok(IdList::from_vec(Vec::new(alloc))),
    }
}

fn ids(alloc: Global, items: &JsonList) -> Result<IdList, NoMemory> {
    let mut ids = Vec::new(alloc);
    for entry in items.as_slice() {
        ids.push(id_in(entry))?;
    }
    Ok(IdList::from_vec(ids))
}

fn id_in(entry: &Json) -> ItemId {
    match entry {
        Json::Obj(fields) => item(fields, "sceneItemId"),
        _ => ItemId(0),
    }
}

fn created(data: &JsonObj) -> Option<Event>
    ensures { IfSome result IsSayableEvent }
{
    Some(Event::SceneItemCreated {
        item: item(data, "sceneItemId"),
        index: count(data, "sceneItemIndex"),
        scene: name(data, "sceneName")?,
        serial: serial(data, "sceneUuid"),
        source: name(data, "sourceName")?,
        source_serial: serial(data, "sourceUuid"),
    })
}

fn removed(data: &JsonObj) -> Option<Event>
    ensures { IfSome result IsSayableEvent }
{
    Some(Event::SceneItemRemoved {
        item: item(data, "sceneItemId"),
        scene: name(data, "sceneName")?,
        serial: serial(data, "sceneUuid"),
        source: name(data, "sourceName")?,
        source_serial: serial(data, "sourceUuid"),
    })
}

/// An event on whether an item is enabled or locked.
fn state(kind: &str, data: &JsonObj) -> Option<Event>
    ensures { IfSome result IsSayableEvent }
{
    let scene = name(data, "sceneName")?;
    flag(kind, data, scene, serial(data, "sceneUuid"))
}

fn flag(kind: &str, data: &JsonObj, scene: Name, serial: Serial) -> Option<Event>
    requires { IsShort serial }
    ensures { IfSome result IsSayableEvent }
{
    let item = item(data, "sceneItemId");
    if kind == "SceneItemEnableStateChanged" {
        let enabled = truth(data, "sceneItemEnabled");
        Some(Event::SceneItemEnableStateChanged {
            enabled,
            item,
            scene,
            serial,
        })
    } else if kind == "SceneItemLockStateChanged" {
        let locked = truth(data, "sceneItemLocked");
        Some(Event::SceneItemLockStateChanged {
            item,
            locked,
            scene,
            serial,
        })
    } else {
        None
    }
}

fn transformed(data: &JsonObj) -> Option<Event>
    ensures { IfSome result IsSayableEvent }
{
    let transform = need_obj(data, "sceneItemTransform").ok()?;
    Some(Event::SceneItemTransformChanged {
        item: item(data, "sceneItemId"),
        place: place_in(transform),
        size: (
            count(transform, "sourceWidth"),
            count(transform, "sourceHeight"),
        ),
        scene: name(data, "sceneName")?,
        serial: serial(data, "sceneUuid"),
    })
}

fn place_in(transform: &JsonObj) -> Place {
    Place {
        x: position(transform, "positionX"),
        y: position(transform, "positionY"),
        scale_x: small(transform, "scaleX"),
        scale_y: small(transform, "scaleY"),
        quarter: u8::try_from(whole(transform, "rotation") / 90).unwrap_or(0),
        align: small(transform, "alignment"),
        crop_left: count(transform, "cropLeft"),
        crop_top: count(transform, "cropTop"),
        crop_right: count(transform, "cropRight"),
        crop_bottom: count(transform, "cropBottom"),
    }
}

fn position(transform: &JsonObj, key: &str) -> i32 {
    i32::try_from(whole(transform, key)).unwrap_or(0)
}

fn small(transform: &JsonObj, key: &str) -> u8 {
    u8::try_from(whole(transform, key)).unwrap_or(0)
}
