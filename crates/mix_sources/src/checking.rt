//! Which settings the keys of an object give.
ghost use Rattle.std.specs.Prelude.{◌≡◌, IfOk, IsTrue};
ghost use Rattle.mix_model.specs.Rows.{is_input};
ghost use Rattle.mix_model.specs.Values.{are_settings, is_canvas};
ghost use Rattle.mix_sources.specs.Answers.{Answers};
ghost use Rattle.mix_sources.specs.Checked.{are_over, checked, checker_over, color_over};
ghost use Rattle.mix_sources.specs.Checked.{keys_over, scroll_over, tone_over};

use crate::defaults::default_of;
use crate::fault::SettingFault;
use crate::keys::{color_at, number_at, side_at, speed_at};
use crate::raster::raster_over;
use mix_base::JsonObj;
use mix_model::{Kind, Settings};
use std::alloc::Global;

/// Puts the given keys over settings of the kind, or over the defaults where there are none. Keys
/// are checked in byte order, and the first fault is the answer; unknown keys are dropped.
pub fn check_settings(
    alloc: Global,
    kind: Kind,
    over: &Settings,
    given: &JsonObj,
    canvas: (u32, u32),
) -> Result<Settings, SettingFault>
    requires input { IsTrue (is_input kind) }
    requires over { IsTrue (are_over kind over.now) }
    requires canvas { IsTrue (is_canvas canvas) }
    ensures value { Answers result (checked kind over.now given.now canvas) }
    ensures valid { IfOk result (λ settings. IsTrue (are_settings kind settings)) }
{
    keys_or_defaults(alloc, kind, over, given, canvas)
}

/// The keys over settings, or over the defaults where there are none.
fn keys_or_defaults(
    alloc: Global,
    kind: Kind,
    over: &Settings,
    given: &JsonObj,
    canvas: (u32, u32),
) -> Result<Settings, SettingFault>
    ensures value { Answers result (checked kind over.now given.now canvas) }
{
    match over {
        Settings::None => {
            let standing = default_of(alloc, kind, canvas)?;
            let settings = keys_over(alloc, &standing, given);
            drop(standing);
            settings
        }
        _ => keys_over(alloc, over, given),
    }
}

fn keys_over(alloc: Global, over: &Settings, given: &JsonObj) -> Result<Settings, SettingFault>
    ensures value { Answers result (keys_over over.now given.now) }
{
    match over {
        Settings::None => Ok(Settings::None),
        Settings::Color {
            color,
            width,
            height,
        } => color_over(alloc, *color, *width, *height, given),
        Settings::Checker {
            color_a,
            color_b,
            cell,
            width,
            height,
        } => checker_over(alloc, *color_a, *color_b, *cell, *width, *height, given),
        Settings::Scroll {
            color_a,
            color_b,
            bar,
            speed,
            width,
            height,
        } => scroll_over(
            alloc, *color_a, *color_b, *bar, *speed, *width, *height, given,
        ),
        Settings::Raster {
            pixels,
            width,
            height,
        } => raster_over(alloc, pixels, *width, *height, given),
        Settings::Tone { level, half } => tone_over(alloc, *level, *half, given),
    }
}

#[tactic(auto, unfolding(crate::specs::Checked::color_over))]
fn color_over(
    alloc: Global,
    color: u32,
    width: u32,
    height: u32,
    given: &JsonObj,
) -> Result<Settings, SettingFault>
    ensures value { Answers result (color_over color width height given.now) }
{
    let color = color_at(alloc, given, "color", color)?;
    let height = side_at(alloc, given, "height", height)?;
    let width = side_at(alloc, given, "width", width)?;
    Ok(Settings::Color {
        color,
        width,
        height,
    })
}

#[tactic(auto, unfolding(crate::specs::Checked::checker_over))]
fn checker_over(
    alloc: Global,
    color_a: u32,
    color_b: u32,
    cell: u32,
    width: u32,
    height: u32,
    given: &JsonObj,
) -> Result<Settings, SettingFault>
    ensures value { Answers result (checker_over color_a color_b cell width height given.now) }
{
    let cell = side_at(alloc, given, "cell", cell)?;
    let color_a = color_at(alloc, given, "color_a", color_a)?;
    let color_b = color_at(alloc, given, "color_b", color_b)?;
    let height = side_at(alloc, given, "height", height)?;
    let width = side_at(alloc, given, "width", width)?;
    Ok(Settings::Checker {
        color_a,
        color_b,
        cell,
        width,
        height,
    })
}

#[tactic(auto, unfolding(crate::specs::Checked::scroll_over))]
fn scroll_over(
    alloc: Global,
    color_a: u32,
    color_b: u32,
    bar: u32,
    speed: i32,
    width: u32,
    height: u32,
    given: &JsonObj,
) -> Result<Settings, SettingFault>
    ensures value { Answers result
        (scroll_over color_a color_b bar speed width height given.now) }
{
    let bar = side_at(alloc, given, "bar", bar)?;
    let color_a = color_at(alloc, given, "color_a", color_a)?;
    let color_b = color_at(alloc, given, "color_b", color_b)?;
    let height = side_at(alloc, given, "height", height)?;
    let speed = speed_at(alloc, given, "speed", speed)?;
    let width = side_at(alloc, given, "width", width)?;
    Ok(Settings::Scroll {
        color_a,
        color_b,
        bar,
        speed,
        width,
        height,
    })
}

#[tactic(auto, unfolding(crate::specs::Checked::tone_over))]
fn tone_over(
    alloc: Global,
    level: u32,
    half: u32,
    given: &JsonObj,
) -> Result<Settings, SettingFault>
    ensures value { Answers result (tone_over level half given.now) }
{
    let half = number_at(alloc, given, "half", 1, 48000, half)?;
    let level = number_at(alloc, given, "level", 0, 32767, level)?;
    Ok(Settings::Tone { level, half })
}
