//! The mean of two pictures.
ghost use Rattle.std.specs.Prelude.{◌≡◌, ◌*◌, ◌<◌, ℕ, length, IsTrue, IfOk};
ghost use Rattle.mix_model.specs.Colours.{pixel_at};
ghost use Rattle.mix_model.specs.Blending.{faded_colour, bytes_faded};
ghost use Rattle.mix_model.specs.Pictures.{is_picture};
ghost use Rattle.mix_raster.specs.Fills.{IsFilled};

use mix_base::{ListOf, NoMemory};
use mix_lanes::fade_onto;
use mix_model::Picture;
use std::alloc::Global;

/// Fades a canvas to another, t parts of n.
pub(crate) fn fade_canvas(rgba: &mut [u8], to: &[u8], t: u32, n: u32, size: (u32, u32))
    requires weights { t < n }
    requires canvas { length rgba.old ≡ 4 * (size.0 * size.1) }
    requires other { length to.now ≡ 4 * (size.0 * size.1) }
    ensures value { rgba.new ≡ bytes_faded t n rgba.old to.now }
    ensures faded { IsFilled size rgba.new (λ x y.
        faded_colour t n (pixel_at size.0 rgba.old x y) (pixel_at size.0 to.now x y)) }
{
    fade_onto(rgba, to, t, n);
}

/// The mean of two pictures of one size, t parts of n of the second, to the nearest in each channel
/// and in the alpha. It is refused for want of memory alone.
pub fn mix_pictures(
    alloc: Global,
    from: &Picture,
    to: &Picture,
    t: u32,
    n: u32,
) -> Result<Picture, NoMemory>
    requires weights { t < n }
    requires width { from.now.width ≡ to.now.width }
    requires height { from.now.height ≡ to.now.height }
    requires whole { IsTrue (is_picture from.now) }
    requires whole_to { IsTrue (is_picture to.now) }
    ensures width { IfOk result (λ picture. picture.width ≡ from.now.width) }
    ensures height { IfOk result (λ picture. picture.height ≡ from.now.height) }
    ensures rgba { IfOk result (λ picture.
        picture.rgba ≡ bytes_faded t n from.now.rgba to.now.rgba) }
    ensures pixels { IfOk result (λ picture. (x y : ℕ) → x < from.now.width → y < from.now.height →
        pixel_at from.now.width picture.rgba x y
        ≡ faded_colour t n (pixel_at from.now.width from.now.rgba x y)
        (pixel_at from.now.width to.now.rgba x y)) }
{
    let mut rgba = Vec::from_slice(alloc, from.rgba.as_slice())?;
    let size = (from.width, from.height);
    fade_canvas(rgba.as_mut_slice(), to.rgba.as_slice(), t, n, size);
    Ok(Picture {
        width: from.width,
        height: from.height,
        rgba: ListOf::from_vec(rgba),
    })
}
