//! SetSceneItemBlendMode.
ghost use Rattle.std.specs.Prelude.{◌≡◌, [], IsTrue};
ghost use Rattle.mix_model.specs.Texts.{blend_named};
ghost use Rattle.mix_model.specs.Values.{is_place};
ghost use Rattle.mix_model.specs.WholeShape.{StudioShape};
ghost use Rattle.mix_requests.specs.Outcomes.{DoesLast};
ghost use Rattle.mix_requests.specs.Ready.{IsReady};
ghost use Rattle.mix_req_items.specs.Changes.{may_be};
ghost use Rattle.mix_req_items.specs.SetSceneItemBlendMode.{blend_mode, set_scene_item_blend_mode};
ghost use Rattle.mix_req_items.specs.declared.changing.Change.TheVariants.{Placed};

use crate::changing::{Change, change_item};
use crate::finding::item_named;
use crate::found::Found;
use crate::numbers::item_id;
use mix_base::{Json, JsonObj, Text};
use mix_json::need_text;
use mix_model::{Blend, Body, Notes};
use mix_requests::{Caller, Events, Refused, needed_fields, sought_name};
use mix_studio::Studio;
use std::alloc::Global;

/// An item is blended otherwise with what lies below it.
#[tactic(auto, unfolding(crate::specs::SetSceneItemBlendMode::set_scene_item_blend_mode))]
pub fn set_scene_item_blend_mode(
    alloc: Global,
    studio: &mut Studio,
    notes: &mut Notes,
    caller: Caller,
    body: &Body,
    events: &mut Events,
) -> Result<Option<Json>, Refused>
    requires ready { IsReady studio.old notes.old }
    requires empty { events.old ≡ [] }
    ensures does { DoesLast result studio.old studio.new notes.old notes.new events.new
        (set_scene_item_blend_mode studio.old.present notes.old caller body.now) }
    ensures shape { StudioShape studio.new.present }
{
    let _ = (alloc, caller);
    let fields = needed_fields(body)?;
    let name = sought_name(fields, "sceneName")?;
    let id = item_id(fields)?;
    let blend = blend_mode(fields)?;
    let found = item_named(studio, name, id)?;
    let change = blended(&found, blend);
    change_item(studio, &found, change);
    Ok(None)
}

/// A blend mode: 300, 401, and 400 where it is none of libobs.
#[tactic(auto, unfolding(crate::specs::SetSceneItemBlendMode::blend_mode))]
fn blend_mode(fields: &JsonObj) -> Result<Blend, u16>
    ensures value { result ≡ blend_mode fields.now }
{
    let text = need_text(fields, "sceneItemBlendMode")?;
    match blend_of(text) {
        Some(blend) => Ok(blend),
        None => Err(400),
    }
}

/// Where it stands already, blended so.
fn blended(found: &Found, blend: Blend) -> Change
    requires place { IsTrue (is_place found.now.item.place) }
    ensures value { result ≡ Placed found.now.item.place blend }
    ensures may { IsTrue (may_be result) }
{
    Change::Placed(found.item.place, blend)
}

/// The blend mode of this text: `None` for every other text.
fn blend_of(text: &Text) -> Option<Blend>
    ensures value { result ≡ blend_named text.now }
{
    let text = text.as_str();
    if "OBS_BLEND_NORMAL" == text {
        Some(Blend::Normal)
    } else if "OBS_BLEND_ADDITIVE" == text {
        Some(Blend::Additive)
    } else if "OBS_BLEND_SUBTRACT" == text {
        Some(Blend::Subtract)
    } else if "OBS_BLEND_SCREEN" == text {
        Some(Blend::Screen)
    } else if "OBS_BLEND_MULTIPLY" == text {
        Some(Blend::Multiply)
    } else if "OBS_BLEND_LIGHTEN" == text {
        Some(Blend::Lighten)
    } else if "OBS_BLEND_DARKEN" == text {
        Some(Blend::Darken)
    } else {
        None
    }
}
