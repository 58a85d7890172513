//! Settings as an object.
ghost use Rattle.std.specs.Prelude.{◌≡◌, false, IfOk, string_bytes};
ghost use Rattle.mix_base.specs.Json.{obj_has_frac};
ghost use Rattle.mix_json.specs.Trees.{obj_of};
ghost use Rattle.mix_sources.specs.Written.{checker_fields, color_fields, fields_of, object_of};
ghost use Rattle.mix_sources.specs.Written.{raster_fields, scroll_fields, text_of, tone_fields};

use base64::engine::general_purpose::STANDARD;
use mix_base::{JsonObj, NoMemory};
use mix_json::Fields;
use mix_model::Settings;
use std::alloc::Global;

/// The settings with all their keys. Scenes and groups have none.
#[tactic(auto, unfolding(crate::specs::Written::object_of))]
pub fn settings_json(alloc: Global, settings: &Settings) -> Result<JsonObj, NoMemory>
    ensures value { IfOk result (λ obj. obj ≡ object_of settings.now) }
    ensures whole { IfOk result (λ obj. obj_has_frac obj ≡ false) }
{
    Ok(fields(alloc, settings)?.into_obj())
}

fn fields(alloc: Global, settings: &Settings) -> Result<Fields, NoMemory>
    ensures value { IfOk result (λ fields. fields ≡ obj_of (fields_of settings.now)) }
{
    match settings {
        Settings::None => Ok(Fields::new(alloc)),
        Settings::Color {
            color,
            width,
            height,
        } => with_color(alloc, *color, *width, *height),
        Settings::Checker {
            color_a,
            color_b,
            cell,
            width,
            height,
        } => with_checker(alloc, *color_a, *color_b, *cell, *width, *height),
        Settings::Scroll {
            color_a,
            color_b,
            bar,
            speed,
            width,
            height,
        } => with_scroll(alloc, *color_a, *color_b, *bar, *speed, *width, *height),
        Settings::Raster {
            pixels,
            width,
            height,
        } => with_raster(alloc, pixels.bytes(), *width, *height),
        Settings::Tone { level, half } => with_tone(alloc, *level, *half),
    }
}

fn with_color(alloc: Global, color: u32, width: u32, height: u32) -> Result<Fields, NoMemory>
    ensures value { IfOk result (λ fields. fields ≡ obj_of (color_fields color width height)) }
{
    Fields::new(alloc)
        .int("color", i64::from(color))?
        .int("height", i64::from(height))?
        .int("width", i64::from(width))
}

fn with_checker(
    alloc: Global,
    color_a: u32,
    color_b: u32,
    cell: u32,
    width: u32,
    height: u32,
) -> Result<Fields, NoMemory>
    ensures value { IfOk result
        (λ fields. fields ≡ obj_of (checker_fields color_a color_b cell width height)) }
{
    Fields::new(alloc)
        .int("cell", i64::from(cell))?
        .int("color_a", i64::from(color_a))?
        .int("color_b", i64::from(color_b))?
        .int("height", i64::from(height))?
        .int("width", i64::from(width))
}

fn with_scroll(
    alloc: Global,
    color_a: u32,
    color_b: u32,
    bar: u32,
    speed: i32,
    width: u32,
    height: u32,
) -> Result<Fields, NoMemory>
    ensures value { IfOk result
        (λ fields. fields ≡ obj_of (scroll_fields color_a color_b bar speed width height)) }
{
    Fields::new(alloc)
        .int("bar", i64::from(bar))?
        .int("color_a", i64::from(color_a))?
        .int("color_b", i64::from(color_b))?
        .int("height", i64::from(height))?
        .int("speed", i64::from(speed))?
        .int("width", i64::from(width))
}

fn with_raster(alloc: Global, pixels: &[u8], width: u32, height: u32) -> Result<Fields, NoMemory>
    ensures value { IfOk result
        (λ fields. fields ≡ obj_of (raster_fields pixels.now width height)) }
{
    let text = STANDARD.encode(alloc, pixels)?;
    Fields::new(alloc)
        .int("height", i64::from(height))?
        .text("pixels", text.as_str())?
        .int("width", i64::from(width))
}

fn with_tone(alloc: Global, level: u32, half: u32) -> Result<Fields, NoMemory>
    ensures value { IfOk result (λ fields. fields ≡ obj_of (tone_fields level half)) }
{
    Fields::new(alloc)
        .int("half", i64::from(half))?
        .int("level", i64::from(level))
}
