//! What the lines of scenes and inputs say, and any line of a source.
ghost use Rattle.std.specs.Prelude.{◌≡◌, IfOk, IfSome, IsTrue, option_and_then};
ghost use Rattle.mix_model.specs.Fitting.{Fits};
ghost use Rattle.mix_model.specs.Rows.{is_input};
ghost use Rattle.mix_model.specs.Values.{is_canvas, are_settings};
ghost use Rattle.mix_collection.specs.Collections.{three_items, kind_from, settings_from};
ghost use Rattle.mix_collection.specs.Collections.{input_from, scene_in, input_in, line_in};
ghost use Rattle.mix_collection.specs.Read.{SetsNoChannel};

use crate::fields::{list_behind, object_in, text_in};
use crate::items::{group_in, item_in};
use crate::lines::{name_from, name_in};
use mix_base::{Json, JsonObj, NoMemory};
use mix_model::{Kind, Line, Settings};
use mix_sources::{SettingFault, check_settings, kind_of};
use std::alloc::Global;

#[tactic(auto, unfolding(crate::specs::Collections::scene_in, mix_model::specs::Fitting::line_fits))]
fn scene_in(alloc: Global, line: &[u8]) -> Result<Option<Line>, NoMemory>
    ensures value { IfOk result (λ scene. scene ≡ scene_in line.now) }
    ensures fits { IfOk result (λ scene. IfSome scene Fits) }
    ensures unset { IfOk result (λ scene. IfSome scene SetsNoChannel) }
{
    match name_in(alloc, b"scene", line)? {
        Some(name) => Ok(Some(Line::Scene { name })),
        None => Ok(None),
    }
}

/// The kind of input whose id this is.
fn kind_from(value: &Json) -> Option<Kind>
    ensures value { result ≡ kind_from value.now }
    ensures input { IfSome result (λ kind. IsTrue (is_input kind)) }
{
    kind_of(text_in(value)?)
}

/// The settings that an object gives a new input of a kind, where none of its keys is refused.
fn settings_from(
    alloc: Global,
    canvas: (u32, u32),
    kind: Kind,
    given: &JsonObj,
) -> Result<Option<Settings>, NoMemory>
    requires canvas { IsTrue (is_canvas canvas) }
    requires input { IsTrue (is_input kind) }
    ensures value { IfOk result (λ settings. settings ≡ settings_from canvas kind given.now) }
    ensures valid { IfOk result
        (λ settings. IfSome settings (λ s. IsTrue (are_settings kind s))) }
{
    match check_settings(alloc, kind, &Settings::None, given, canvas) {
        Ok(settings) => Ok(Some(settings)),
        Err(SettingFault::Bad(bad)) => {
            drop(bad);
            Ok(None)
        }
        Err(SettingFault::NoMemory) => Err(NoMemory),
    }
}

/// An input: its kind, its name, and its settings.
fn input_of(
    alloc: Global,
    canvas: (u32, u32),
    id: &Json,
    name: &Json,
    given: &Json,
) -> Result<Option<Line>, NoMemory>
    requires canvas { IsTrue (is_canvas canvas) }
    ensures value { IfOk result (λ input. input ≡ input_from canvas (id.now, name.now, given.now)) }
    ensures fits { IfOk result (λ input. IfSome input Fits) }
    ensures unset { IfOk result (λ input. IfSome input SetsNoChannel) }
{
    let Some(kind) = kind_from(id) else {
        return Ok(None);
    };
    let Some(name) = name_from(name) else {
        return Ok(None);
    };
    let Some(given) = object_in(given) else {
        drop(name);
        return Ok(None);
    };
    match settings_from(alloc, canvas, kind, given) {
        Ok(Some(settings)) => Ok(Some(Line::Input {
            kind,
            name,
            settings,
        })),
        Ok(None) => {
            drop(name);
            Ok(None)
        }
        Err(_) => {
            drop(name);
            Err(NoMemory)
        }
    }
}

fn input_from(alloc: Global, canvas: (u32, u32), items: &[Json]) -> Result<Option<Line>, NoMemory>
    requires canvas { IsTrue (is_canvas canvas) }
    ensures value { IfOk result
        (λ input. input ≡ option_and_then (input_from canvas) (three_items items.now)) }
    ensures fits { IfOk result (λ input. IfSome input Fits) }
    ensures unset { IfOk result (λ input. IfSome input SetsNoChannel) }
{
    match items {
        [id, name, given] => input_of(alloc, canvas, id, name, given),
        _ => Ok(None),
    }
}

#[tactic(auto, unfolding(crate::specs::Collections::input_in))]
fn input_in(alloc: Global, canvas: (u32, u32), line: &[u8]) -> Result<Option<Line>, NoMemory>
    requires canvas { IsTrue (is_canvas canvas) }
    ensures value { IfOk result (λ input. input ≡ input_in canvas line.now) }
    ensures fits { IfOk result (λ input. IfSome input Fits) }
    ensures unset { IfOk result (λ input. IfSome input SetsNoChannel) }
{
    match list_behind(alloc, b"input", line)? {
        Some(items) => {
            let input = input_from(alloc, canvas, items.as_slice());
            drop(items);
            input
        }
        None => Ok(None),
    }
}

/// What a line says that stands between the head and the program's line: a scene, an input whose
/// settings are as large as the canvas where nothing else is said, a group, or an item.
#[tactic(auto, unfolding(crate::specs::Collections::line_in))]
pub fn line_in(alloc: Global, canvas: (u32, u32), line: &[u8]) -> Result<Option<Line>, NoMemory>
    requires canvas { IsTrue (is_canvas canvas) }
    ensures value { IfOk result (λ found. found ≡ line_in canvas line.now) }
    ensures fits { IfOk result (λ found. IfSome found Fits) }
    ensures unset { IfOk result (λ found. IfSome found SetsNoChannel) }
{
    if let Some(scene) = scene_in(alloc, line)? {
        return Ok(Some(scene));
    }
    if let Some(input) = input_in(alloc, canvas, line)? {
        return Ok(Some(input));
    }
    if let Some(group) = group_in(alloc, line)? {
        return Ok(Some(group));
    }
    item_in(alloc, line)
}
