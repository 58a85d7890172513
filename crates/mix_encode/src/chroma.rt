//! The two planes of colour: a byte in each for every square of four pixels.
ghost use Rattle.std.specs.Prelude.{◌≡◌, ◌+◌, ◌*◌, ◌/◌, ◌<◌, ◌≤◌, length, map, IsTrue};
ghost use Rattle.std.specs.List.{range_with_len};
ghost use Rattle.mix_model.specs.Colours.{bytes_of, colour_at};
ghost use Rattle.mix_model.specs.Encoding.{chroma_blue, chroma_red, mean_colour, plane};
ghost use Rattle.mix_model.specs.Encoding.{square_colour};
ghost use Rattle.mix_model.specs.Pictures.{is_picture};

use crate::pixel::{chroma_blue, chroma_red, mean_pixel, pixel_at};
use crate::row::row_at;
use mix_model::Picture;

/// The mean of a square of four pixels, whose bytes begin at the same place in two rows.
fn square(upper: &[u8], lower: &[u8], at: usize) -> [u8; 4]
    requires upper { at + 8 ≤ length upper.now }
    requires lower { at + 8 ≤ length lower.now }
    ensures { result ≡ bytes_of (mean_colour
        (colour_at upper.now at) (colour_at upper.now (at + 4))
        (colour_at lower.now at) (colour_at lower.now (at + 4))) }
{
    mean_pixel(
        pixel_at(upper, at),
        pixel_at(upper, at + 4),
        pixel_at(lower, at),
        pixel_at(lower, at + 4),
    )
}

/// Fills row y of both planes, from two rows of the picture.
fn fill_chroma_row(blue: &mut [u8], red: &mut [u8], picture: &Picture, y: u32)
    requires whole { IsTrue (is_picture picture.now) }
    requires within { 2 * y + 1 < picture.now.height }
    requires blue { length blue.old ≡ picture.now.width / 2 }
    requires red { length red.old ≡ picture.now.width / 2 }
    ensures blue { blue.new ≡ map (λ x. chroma_blue (square_colour picture.now x y))
        (range_with_len 0 (picture.now.width / 2)) }
    ensures red { red.new ≡ map (λ x. chroma_red (square_colour picture.now x y))
        (range_with_len 0 (picture.now.width / 2)) }
{
    let top = 2 * y as usize;
    let upper = row_at(picture, top);
    let lower = row_at(picture, top + 1);
    for x in 0..blue.len() {
        let mean = square(upper, lower, 8 * x);
        blue[x] = chroma_blue(mean);
        red[x] = chroma_red(mean);
    }
}

/// Fills both planes.
pub(crate) fn fill_chroma(blue: &mut [u8], red: &mut [u8], picture: &Picture)
    requires whole { IsTrue (is_picture picture.now) }
    requires blue { length blue.old ≡ picture.now.width / 2 * (picture.now.height / 2) }
    requires red { length red.old ≡ picture.now.width / 2 * (picture.now.height / 2) }
    ensures blue { blue.new ≡ plane (picture.now.width / 2) (picture.now.height / 2)
        (λ x y. chroma_blue (square_colour picture.now x y)) }
    ensures red { red.new ≡ plane (picture.now.width / 2) (picture.now.height / 2)
        (λ x y. chroma_red (square_colour picture.now x y)) }
{
    let width = picture.width as usize / 2;
    for y in 0..picture.height / 2 {
        let start = width * y as usize;
        let end = start + width;
        fill_chroma_row(&mut blue[start..end], &mut red[start..end], picture, y);
    }
}
