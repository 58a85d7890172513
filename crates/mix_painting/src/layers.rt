//! The layers of the scene: rasters of colour bars.
ghost use Rattle.std.specs.Prelude.{◌≡◌, ◌*◌, ◌≤◌, ◌<◌, length, IfOk, IsTrue, true};
ghost use Rattle.mix_model.specs.Plans.{has_settings, is_draw};
ghost use Rattle.mix_model.specs.Values.{are_valid, is_place};

use mix_base::{NoMemory, SharedBytes};
use mix_model::{Blend, Draw, Place, Settings, Step, StepList};
use std::alloc::Global;

/// Red, green and blue of the bars.
const BARS: [[u8; 3]; 8] = [
    [235, 235, 235],
    [235, 235, 16],
    [16, 235, 235],
    [16, 235, 16],
    [235, 16, 235],
    [235, 16, 16],
    [16, 16, 235],
    [16, 16, 16],
];

/// Paints eight bars beside each other over rows of this width, from one of them on.
fn paint_bars(bytes: &mut [u8], width: usize, first: usize)
    requires some { 0 < width }
    requires small { (width ≤ 4096) × (first ≤ 4096) }
{
    for pixel in 0..bytes.len() / 4 {
        let bar = BARS[(pixel % width * 8 / width + first) % 8];
        bytes[4 * pixel] = bar[0];
        bytes[4 * pixel + 1] = bar[1];
        bytes[4 * pixel + 2] = bar[2];
    }
}

/// Bars of this alpha, red, green, blue and alpha of each pixel.
fn bars(alloc: Global, size: (u32, u32), first: usize, alpha: u8) -> Result<Vec<u8>, NoMemory>
    requires some { 0 < size.0 }
    requires small { (size.0 ≤ 4096) × (size.1 ≤ 4096) }
    requires first { first ≤ 4096 }
    ensures { IfOk result (λ bytes. length bytes.items ≡ 4 * (size.0 * size.1)) }
{
    let mut bytes = vec![in alloc; alpha; 4 * (size.0 as usize * size.1 as usize)]?;
    paint_bars(bytes.as_mut_slice(), size.0 as usize, first);
    Ok(bytes)
}

/// A raster of bars.
#[tactic(auto, unfolding(mix_model::specs::Values::are_valid))]
fn raster(alloc: Global, size: (u32, u32), first: usize, alpha: u8) -> Result<Settings, NoMemory>
    requires some { (0 < size.0) × (0 < size.1) }
    requires small { (size.0 ≤ 4096) × (size.1 ≤ 4096) }
    requires few { size.0 * size.1 ≤ 131072 }
    requires first { first ≤ 4096 }
    ensures valid { IfOk result (λ settings. IsTrue (are_valid settings)) }
    ensures some { IfOk result (λ settings. has_settings settings ≡ true) }
{
    let bytes = bars(alloc, size, first, alpha)?;
    let shared = SharedBytes::read(alloc, bytes.as_slice());
    drop(bytes);
    let pixels = shared?;
    Ok(Settings::Raster {
        pixels,
        width: size.0,
        height: size.1,
    })
}

/// A place in the corner at the left and the top, so far from it, each pixel so often.
#[tactic(auto, unfolding(mix_model::specs::Values::is_place))]
fn place(x: u16, y: u16, scale: u8) -> Place
    requires scale { (0 < scale) × (scale ≤ 16) }
    ensures { IsTrue (is_place result) }
{
    Place {
        x: i32::from(x),
        y: i32::from(y),
        scale_x: scale,
        scale_y: scale,
        quarter: 0,
        align: 5,
        crop_left: 0,
        crop_top: 0,
        crop_right: 0,
        crop_bottom: 0,
    }
}

/// Settings through a place, active since tick 0.
#[tactic(auto, unfolding(mix_model::specs::Plans::is_draw))]
fn draw(
    alloc: Global,
    settings: Settings,
    size: (u32, u32),
    place: Place,
    blend: Blend,
) -> Result<Draw, NoMemory>
    requires settings { IsTrue (are_valid settings) }
    requires some { has_settings settings ≡ true }
    requires place { IsTrue (is_place place) }
    requires small { (size.0 ≤ 4096) × (size.1 ≤ 4096) }
    ensures valid { IfOk result (λ draw. IsTrue (is_draw draw)) }
    ensures since { IfOk result (λ draw. draw.since ≡ 0) }
{
    let step = Step {
        place,
        width: size.0,
        height: size.1,
    };
    let Ok(steps) = Vec::from_slice(alloc, &[step]) else {
        drop(settings);
        return Err(NoMemory);
    };
    Ok(Draw {
        settings,
        since: 0,
        steps: StepList::from_vec(steps),
        blend,
    })
}

/// The layer of this number, of rasters of 480 by 270 pixels. The lowest is opaque and covers the
/// canvas; the others are twice as large as their rasters, and added where their number is even.
pub fn layer(alloc: Global, number: u8) -> Result<Draw, NoMemory>
    requires { number < 12 }
    ensures valid { IfOk result (λ draw. IsTrue (is_draw draw)) }
    ensures since { IfOk result (λ draw. draw.since ≡ 0) }
{
    let size = (480, 270);
    if number == 0 {
        let lowest = raster(alloc, size, 0, 255)?;
        return draw(alloc, lowest, size, place(0, 0, 4), Blend::Normal);
    }
    let far = u16::from(number);
    let bars = raster(alloc, size, usize::from(number), 64 + 16 * number)?;
    let place = place(83 * far % 960, 47 * far % 540, 2);
    if number % 2 == 0 {
        draw(alloc, bars, size, place, Blend::Additive)
    } else {
        draw(alloc, bars, size, place, Blend::Normal)
    }
}
