//! GetSceneItemBlendMode, GetSceneItemEnabled, GetSceneItemIndex, GetSceneItemLocked.
ghost use Rattle.std.specs.Prelude.{◌≡◌, ◌∷◌, [], IfOk};
ghost use Rattle.mix_json.specs.Trees.{put_fields};
ghost use Rattle.mix_model.specs.Texts.{blend_text};
ghost use Rattle.mix_model.specs.WholeShape.{StudioShape};
ghost use Rattle.mix_requests.specs.Outcomes.{DoesLast};
ghost use Rattle.mix_requests.specs.Ready.{IsReady};
ghost use Rattle.mix_req_items.specs.Parts.{get_part, part_answer, part_field};

use crate::finding::found_item;
use crate::found::Found;
use mix_base::{Json, NoMemory};
use mix_json::Fields;
use mix_model::{Blend, Body, Notes};
use mix_requests::{Caller, Events, Refused};
use mix_studio::Studio;
use std::alloc::Global;

/// What is asked of an item.
#[derive(Clone, Copy)]
pub enum Part {
    BlendMode,
    Enabled,
    Index,
    Locked,
}

/// One thing of an item.
#[tactic(auto, unfolding(crate::specs::Parts::get_part))]
pub fn get_part(
    alloc: Global,
    part: Part,
    studio: &mut Studio,
    notes: &mut Notes,
    caller: Caller,
    body: &Body,
    events: &mut Events,
) -> Result<Option<Json>, Refused>
    requires ready { IsReady studio.old notes.old }
    requires empty { events.old ≡ [] }
    ensures does { DoesLast result studio.old studio.new notes.old notes.new events.new
        (get_part part studio.old.present notes.old caller body.now) }
    ensures shape { StudioShape studio.new.present }
{
    let _ = caller;
    let found = found_item(studio, body)?;
    let answer = part_answer(alloc, part, &found)?;
    Ok(Some(answer))
}

/// The answer.
#[tactic(auto, unfolding(crate::specs::Parts::part_answer))]
fn part_answer(alloc: Global, part: Part, found: &Found) -> Result<Json, NoMemory>
    ensures value { IfOk result (λ answer. answer ≡ part_answer part found.now) }
{
    let fields = with_part(Fields::new(alloc), part, found)?;
    Ok(Json::Obj(fields.into_obj()))
}

/// With its one field.
fn with_part(fields: Fields, part: Part, found: &Found) -> Result<Fields, NoMemory>
    ensures value { IfOk result (λ all. all ≡ put_fields (part_field part found.now ∷ []) fields) }
{
    match part {
        Part::BlendMode => fields.text("sceneItemBlendMode", blend_text(found.item.blend)),
        Part::Enabled => fields.truth("sceneItemEnabled", found.item.enabled),
        Part::Index => fields.int("sceneItemIndex", i64::from(found.index)),
        Part::Locked => fields.truth("sceneItemLocked", found.item.locked),
    }
}

/// The text of a blend mode, as libobs names it.
fn blend_text(blend: Blend) -> &'static str
    ensures value { result.now ≡ blend_text blend }
{
    match blend {
        Blend::Normal => "OBS_BLEND_NORMAL",
        Blend::Additive => "OBS_BLEND_ADDITIVE",
        Blend::Subtract => "OBS_BLEND_SUBTRACT",
        Blend::Screen => "OBS_BLEND_SCREEN",
        Blend::Multiply => "OBS_BLEND_MULTIPLY",
        Blend::Lighten => "OBS_BLEND_LIGHTEN",
        Blend::Darken => "OBS_BLEND_DARKEN",
    }
}
