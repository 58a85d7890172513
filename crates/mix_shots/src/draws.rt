//! Draws that the lines of a table give.
ghost use Rattle.std.specs.Prelude.{◌≡◌, IfOk, IfSome, IsTrue};
ghost use Rattle.mix_model.specs.Plans.{has_settings, is_draw};
ghost use Rattle.mix_model.specs.Values.{are_valid, is_place};

use crate::given::{any_canvas, settings_of};
use crate::kinds::input;
use crate::places::place_in;
use mix_base::{JsonObj, NoMemory};
use mix_json::{need_obj, need_text};
use mix_model::{Blend, Draw, Place, Settings, Step, StepList};
use std::alloc::Global;

/// The draw of an object: an input of a `kind` with its `settings` through one `place`, which meets
/// what is below by its `blend`. It is active since tick 0.
pub fn draw_of(alloc: Global, fields: &JsonObj) -> Result<Option<Draw>, NoMemory>
    ensures valid { IfOk result (λ all. IfSome all (λ draw. IsTrue (is_draw draw))) }
    ensures since { IfOk result (λ all. IfSome all (λ draw. draw.since ≡ 0)) }
{
    let Ok(place) = need_obj(fields, "place") else {
        return Ok(None);
    };
    let Some(place) = place_in(place) else {
        return Ok(None);
    };
    match settings_in(alloc, fields)? {
        Some(settings) => through(alloc, settings, place, blend_in(fields)),
        None => Ok(None),
    }
}

/// The settings of a draw.
fn settings_in(alloc: Global, fields: &JsonObj) -> Result<Option<Settings>, NoMemory>
    ensures { IfOk result (λ all. IfSome all (λ settings. IsTrue (are_valid settings))) }
{
    let (Ok(id), Ok(given)) = (need_text(fields, "kind"), need_obj(fields, "settings")) else {
        return Ok(None);
    };
    match input(alloc, id.as_str())? {
        Some(kind) => settings_of(alloc, kind, given, any_canvas()),
        None => Ok(None),
    }
}

/// Settings through a place, where they are some.
#[tactic(auto, unfolding(mix_model::specs::Plans::is_draw))]
fn through(
    alloc: Global,
    settings: Settings,
    place: Place,
    blend: Blend,
) -> Result<Option<Draw>, NoMemory>
    requires settings { IsTrue (are_valid settings) }
    requires place { IsTrue (is_place place) }
    ensures valid { IfOk result (λ all. IfSome all (λ draw. IsTrue (is_draw draw))) }
    ensures since { IfOk result (λ all. IfSome all (λ draw. draw.since ≡ 0)) }
{
    let (width, height) = settings.size((0, 0));
    if !has_settings(&settings) || width > 4096 || height > 4096 {
        drop(settings);
        return Ok(None);
    }
    let step = Step {
        place,
        width,
        height,
    };
    match Vec::from_slice(alloc, &[step]) {
        Ok(steps) => Ok(Some(draw(settings, StepList::from_vec(steps), blend))),
        Err(_) => {
            drop(settings);
            Err(NoMemory)
        }
    }
}

fn draw(settings: Settings, steps: StepList, blend: Blend) -> Draw
    ensures settings { result.settings ≡ settings }
    ensures steps { result.steps ≡ steps }
    ensures since { result.since ≡ 0 }
{
    Draw {
        settings,
        since: 0,
        steps,
        blend,
    }
}

fn has_settings(settings: &Settings) -> bool
    ensures { result ≡ has_settings settings.now }
{
    match settings {
        Settings::None => false,
        Settings::Color { .. }
        | Settings::Checker { .. }
        | Settings::Scroll { .. }
        | Settings::Raster { .. }
        | Settings::Tone { .. } => true,
    }
}

/// How a draw meets what is below.
fn blend_in(fields: &JsonObj) -> Blend {
    match need_text(fields, "blend") {
        Ok(word) => blend_of(word.as_str()),
        Err(_) => Blend::Normal,
    }
}

fn blend_of(word: &str) -> Blend {
    if word == "Additive" {
        Blend::Additive
    } else if word == "Subtract" {
        Blend::Subtract
    } else if word == "Screen" {
        Blend::Screen
    } else if word == "Multiply" {
        Blend::Multiply
    } else if word == "Lighten" {
        Blend::Lighten
    } else if word == "Darken" {
        Blend::Darken
    } else {
        Blend::Normal
    }
}
