//! Draws that hide what lies below them.
ghost use Rattle.std.specs.Prelude.{◌≡◌, ◌+◌, ◌*◌, ◌≤◌, ◌<◌, ℕ, length, IsTrue, IsSome, IfSome};
ghost use Rattle.mix_model.specs.Colours.{colour_at, colour_of_number};
ghost use Rattle.mix_model.specs.Drawing.{is_inside};
ghost use Rattle.mix_model.specs.Kinds.{pixel_of};
ghost use Rattle.mix_model.specs.Plans.{are_paintable, is_draw};
ghost use Rattle.mix_model.specs.Sizes.{size_of};
ghost use Rattle.mix_model.specs.Values.{are_valid};
ghost use Rattle.mix_raster.specs.Hiding.{Hides, IsSeenFrom};
ghost use Rattle.mix_raster.specs.Ways.{column_led, row_led};

use crate::band::Band;
use crate::way::{columns_of, rows_of};
use mix_model::{Blend, Draw, Settings};

fn is_full(color: u32) -> bool
    ensures full { IsTrue result → (colour_of_number color).alpha ≡ 255 }
{
    color / 16_777_216 % 256 == 255
}

/// Whether each pixel of some bytes is opaque.
fn are_full(pixels: &[u8]) -> bool
    ensures full { IsTrue result → (k : ℕ) → 4 * k + 4 ≤ length pixels.now →
        (colour_at pixels.now (4 * k)).alpha ≡ 255 }
{
    for k in 0..pixels.len() / 4 {
        if pixels[4 * k + 3] != 255 {
            return false;
        }
    }
    true
}

/// Whether each pixel of an input is opaque.
fn is_opaque(settings: &Settings) -> bool
    requires valid { IsTrue (are_valid settings.now) }
    ensures opaque { IsTrue result → (since tick u v : ℕ) →
        IsTrue (is_inside (size_of settings.now (0, 0)) u v) →
        (pixel_of settings.now since tick u v).alpha ≡ 255 }
{
    match settings {
        Settings::None | Settings::Tone { .. } => false,
        Settings::Color { color, .. } => is_full(*color),
        Settings::Checker {
            color_a,
            color_b,
            ..
        } => is_full(*color_a) && is_full(*color_b),
        Settings::Scroll {
            color_a,
            color_b,
            ..
        } => is_full(*color_a) && is_full(*color_b),
        Settings::Raster { pixels, .. } => are_full(pixels.bytes()),
    }
}

/// Whether each column and row of a band leads to the source of a draw.
fn spans_all(draw: &Draw, band: Band) -> bool
    requires draw { IsTrue (is_draw draw.now) }
    ensures columns { IsTrue result → (x : ℕ) → x < band.width → IsSome (column_led draw.now x) }
    ensures rows { IsTrue result → (y : ℕ) → y < band.rows → IsSome (row_led draw.now (band.top + y)) }
{
    let (left, right) = columns_of(draw);
    let (top, bottom) = rows_of(draw);
    left == 0
        && band.width <= right
        && top <= band.top
        && u64::from(band.top) + u64::from(band.rows) <= u64::from(bottom)
}

/// Whether a draw covers each pixel of a band with opaque ones, so that nothing is seen of what lies
/// below it.
fn hides(draw: &Draw, band: Band) -> bool
    requires draw { IsTrue (is_draw draw.now) }
    ensures hides { IsTrue result → Hides draw.now band }
{
    match draw.blend {
        Blend::Normal => spans_all(draw, band) && is_opaque(&draw.settings),
        _ => false,
    }
}

/// The last draw that hides all below it in a band, if there is any. What comes before it isn't seen.
pub(crate) fn first_seen(draws: &[Draw], tick: u64, band: Band) -> Option<usize>
    requires draws { IsTrue (are_paintable tick draws.now) }
    ensures seen { IfSome result (IsSeenFrom draws.now band) }
{
    for k in (0..draws.len()).rev() {
        if hides(&draws[k], band) {
            return Some(k);
        }
    }
    None
}
