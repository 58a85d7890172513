//! The picture of a shot.
ghost use Rattle.std.specs.Prelude.{◌≡◌, ◌+◌, ◌*◌, ◌^◌, ◌≤◌, ◌<◌, ℕ, length, IsTrue, IfOk, OnOk};
ghost use Rattle.mix_model.specs.Colours.{colour_at, pixel_at, black};
ghost use Rattle.mix_model.specs.Plans.{is_shot, are_paintable, draws_over, base_colour, painted};
ghost use Rattle.mix_raster.specs.Fills.{IsFilled, IsOpaque, IsReady, IsPainted};

use crate::band::Band;
use crate::hiding::first_seen;
use crate::layer::paint_draws;
use crate::mixing::fade_canvas;
use crate::pixels::put;
use crate::way::Way;
use mix_base::{ListOf, NoMemory};
use mix_model::{Draw, Picture, Shot};
use std::alloc::Global;

/// Makes so many pixels black.
fn blacken(rgba: &mut [u8], pixels: usize)
    requires { length rgba.old ≡ 4 * pixels }
    ensures { (k : ℕ) → k < pixels → colour_at rgba.new (4 * k) ≡ black }
{
    for pixel in 0..pixels {
        put(rgba, 4 * pixel, [0, 0, 0, 255]);
    }
}

/// Paints draws over black. Nothing is painted of those that others hide.
fn paint_list(rgba: &mut [u8], row: &mut [u8], way: &mut Way, draws: &[Draw], tick: u64, band: Band)
    requires draws { IsTrue (are_paintable tick draws.now) }
    requires columns { band.width ≤ length way.old.across.table.items }
    requires rows { band.rows ≤ length way.old.down.table.items }
    requires canvas { length rgba.old ≡ 4 * (band.width * band.rows) }
    requires opaque { IsOpaque (band.width, band.rows) rgba.old }
    requires row { length row.old ≡ 4 * band.width }
    requires tall { band.top + band.rows < 2 ^ 32 }
    ensures painted { IsFilled (band.width, band.rows) rgba.new (λ x y.
        draws_over tick x (band.top + y) black draws.now) }
    ensures columns { length way.new.across.table.items ≡ length way.old.across.table.items }
    ensures rows { length way.new.down.table.items ≡ length way.old.down.table.items }
{
    match first_seen(draws, tick, band) {
        Some(first) => paint_draws(rgba, row, way, &draws[first..], tick, band),
        None => {
            blacken(rgba, rgba.len() / 4);
            paint_draws(rgba, row, way, draws, tick, band);
        }
    }
}

/// Room for a band, opaque. There is no memory for one whose bytes can't be counted.
pub(crate) fn room(alloc: Global, band: Band) -> Result<Vec<u8>, NoMemory>
    ensures length { IfOk result (λ rgba. length rgba.items ≡ 4 * (band.width * band.rows)) }
    ensures opaque { IfOk result (λ rgba. IsOpaque (band.width, band.rows) rgba.items) }
{
    let pixels = band.width as usize * band.rows as usize;
    let Some(bytes) = pixels.checked_mul(4) else {
        return Err(NoMemory)
    };
    Ok(vec![in alloc; 255; bytes]?)
}

/// Paints the one list of a shot over black, or the fade of its two.
fn paint_base(
    alloc: Global,
    rgba: &mut [u8],
    row: &mut [u8],
    way: &mut Way,
    shot: &Shot,
    tick: u64,
    band: Band,
) -> Result<(), NoMemory>
    requires ready { IsReady shot.now tick band rgba.old }
    requires columns { band.width ≤ length way.old.across.table.items }
    requires rows { band.rows ≤ length way.old.down.table.items }
    requires row { length row.old ≡ 4 * band.width }
    ensures painted { OnOk result (IsFilled (band.width, band.rows) rgba.new (λ x y.
        base_colour shot.now tick shot.now.to x (band.top + y))) }
    ensures columns { length way.new.across.table.items ≡ length way.old.across.table.items }
    ensures rows { length way.new.down.table.items ≡ length way.old.down.table.items }
{
    paint_list(rgba, row, way, shot.from.as_slice(), tick, band);
    let Some(to) = &shot.to else { return Ok(()) };
    let mut other = room(alloc, band)?;
    paint_list(other.as_mut_slice(), row, way, to.as_slice(), tick, band);
    fade_canvas(
        rgba,
        other.as_slice(),
        shot.t,
        shot.n,
        (band.width, band.rows),
    );
    Ok(())
}

/// Paints a band of the picture of a shot over any opaque pixels.
pub(crate) fn paint_band(
    alloc: Global,
    shot: &Shot,
    tick: u64,
    band: Band,
    rgba: &mut [u8],
) -> Result<(), NoMemory>
    requires ready { IsReady shot.now tick band rgba.old }
    ensures painted { OnOk result (IsPainted shot.now tick band rgba.new) }
{
    let mut way = Way::new(alloc, band)?;
    let mut bytes = vec![in alloc; 0; 4 * band.width as usize]?;
    let row = bytes.as_mut_slice();
    paint_base(alloc, rgba, row, &mut way, shot, tick, band)?;
    paint_draws(rgba, row, &mut way, shot.over.as_slice(), tick, band);
    Ok(())
}

/// A picture of this width and height with these bytes.
pub(crate) fn picture_of(canvas: (u32, u32), rgba: Vec<u8>) -> Picture
    ensures value { result ≡ record { width = canvas.0; height = canvas.1; rgba = rgba.items } }
{
    Picture {
        width: canvas.0,
        height: canvas.1,
        rgba: ListOf::from_vec(rgba),
    }
}

/// The picture of a shot at a tick, on a canvas of this width and height in pixels. It has red, green,
/// blue and alpha of each pixel, row by row, and the alpha is 255. It is refused for want of memory
/// alone, as which counts that a canvas has too many bytes to be numbered.
pub fn paint(alloc: Global, shot: &Shot, tick: u64, canvas: (u32, u32)) -> Result<Picture, NoMemory>
    requires shot { IsTrue (is_shot tick shot.now) }
    ensures value { IfOk result (λ picture. picture ≡ painted shot.now tick canvas) }
    ensures opaque { IfOk result (λ picture. (x y : ℕ) → x < canvas.0 → y < canvas.1 →
        (pixel_at canvas.0 picture.rgba x y).alpha ≡ 255) }
{
    let band = Band::of(canvas);
    let mut rgba = room(alloc, band)?;
    paint_band(alloc, shot, tick, band, rgba.as_mut_slice())?;
    Ok(picture_of(canvas, rgba))
}
