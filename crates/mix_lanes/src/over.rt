//! A row of pixels over another.
ghost use Rattle.std.specs.Prelude.{◌≡◌, ◌+◌, ◌*◌, ◌%◌, ◌≤◌, ℕ, length};
ghost use Rattle.mix_model.specs.Blending.{over, pixels_over};
ghost use Rattle.mix_model.specs.Colours.{colour_at};

use crate::fours::over_four;
use crate::mode::{Additive, Darken, Lighten, Mode, Multiply, Normal, Screen, Subtract};
use crate::pixel::over_pixel;
use mix_model::Blend;

/// Lays a row over another in one mode: four pixels at a time, and then the last ones.
fn over_by<M: Mode>(below: &mut [u8], above: &[u8])
    requires same { length below.old ≡ length above.now }
    requires whole { length below.old % 4 ≡ 0 }
    ensures { below.new ≡ pixels_over M.blend above.now below.old }
{
    let mut at = 0;
    'fours: while below.len() - at >= 16 {
        over_four::<M>(below, above, at);
        at += 16;
    }
    'rest: while at < below.len() {
        over_pixel::<M>(below, above, at);
        at += 4;
    }
}

/// Lays a row over another in a mode that is chosen once for all of it.
fn over_in(below: &mut [u8], above: &[u8], blend: Blend)
    requires same { length below.old ≡ length above.now }
    requires whole { length below.old % 4 ≡ 0 }
    ensures { below.new ≡ pixels_over blend above.now below.old }
{
    match blend {
        Blend::Normal => over_by::<Normal>(below, above),
        Blend::Additive => over_by::<Additive>(below, above),
        Blend::Subtract => over_by::<Subtract>(below, above),
        Blend::Screen => over_by::<Screen>(below, above),
        Blend::Multiply => over_by::<Multiply>(below, above),
        Blend::Lighten => over_by::<Lighten>(below, above),
        Blend::Darken => over_by::<Darken>(below, above),
    }
}

/// Lays each pixel of a row, red, green, blue and alpha, over that of another, whose alpha stays.
pub fn over_row(below: &mut [u8], above: &[u8], blend: Blend)
    requires same { length below.old ≡ length above.now }
    requires whole { length below.old % 4 ≡ 0 }
    ensures value { below.new ≡ pixels_over blend above.now below.old }
    ensures pixels { (x : ℕ) → 4 * x + 4 ≤ length below.old → colour_at below.new (4 * x)
        ≡ over blend (colour_at above.now (4 * x)) (colour_at below.old (4 * x)) }
{
    over_in(below, above, blend);
}
