//! A row of a picture.
ghost use Rattle.std.specs.Prelude.{◌≡◌, ◌*◌, ◌<◌, ℕ, length, IsTrue};
ghost use Rattle.mix_model.specs.Colours.{colour_at};
ghost use Rattle.mix_model.specs.Encoding.{pixel_in};
ghost use Rattle.mix_model.specs.Pictures.{is_picture};

use mix_model::Picture;

/// The bytes of row y, four for each pixel.
pub(crate) fn row_at(picture: &Picture, y: usize) -> &[u8]
    requires whole { IsTrue (is_picture picture.now) }
    requires within { y < picture.now.height }
    ensures length { length result.now ≡ 4 * picture.now.width }
    ensures pixels { (x : ℕ) → x < picture.now.width →
        colour_at result.now (4 * x) ≡ pixel_in picture.now x y }
{
    let bytes = picture.rgba.as_slice();
    let side = 4 * picture.width as usize;
    let start = side * y;
    &bytes[start..start + side]
}
