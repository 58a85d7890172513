//! The plane of brightness: a byte for each pixel.
ghost use Rattle.std.specs.Prelude.{◌≡◌, ◌*◌, ◌<◌, length, map, IsTrue};
ghost use Rattle.std.specs.List.{range_with_len};
ghost use Rattle.mix_model.specs.Encoding.{luma, pixel_in, plane};
ghost use Rattle.mix_model.specs.Pictures.{is_picture};

use crate::pixel::{luma, pixel_at};
use crate::row::row_at;
use mix_model::Picture;

/// Fills row y of the plane.
fn fill_luma_row(into: &mut [u8], picture: &Picture, y: u32)
    requires whole { IsTrue (is_picture picture.now) }
    requires within { y < picture.now.height }
    requires length { length into.old ≡ picture.now.width }
    ensures { into.new ≡ map (λ x. luma (pixel_in picture.now x y))
        (range_with_len 0 picture.now.width) }
{
    let row = row_at(picture, y as usize);
    for x in 0..into.len() {
        into[x] = luma(pixel_at(row, 4 * x));
    }
}

/// Fills the plane.
pub(crate) fn fill_luma(into: &mut [u8], picture: &Picture)
    requires whole { IsTrue (is_picture picture.now) }
    requires length { length into.old ≡ picture.now.width * picture.now.height }
    ensures { into.new ≡ plane picture.now.width picture.now.height
        (λ x y. luma (pixel_in picture.now x y)) }
{
    let width = picture.width as usize;
    for y in 0..picture.height {
        let start = width * y as usize;
        fill_luma_row(&mut into[start..start + width], picture, y);
    }
}
