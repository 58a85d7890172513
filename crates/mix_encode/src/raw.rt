//! A picture's bytes: as it has them, or as planes.
ghost use Rattle.std.specs.Prelude.{◌≡◌, ◌*◌, ◌/◌, ◌%◌, length, IfOk, IsTrue};
ghost use Rattle.mix_model.specs.Encoding.{i420_of};
ghost use Rattle.mix_model.specs.Pictures.{is_picture};

use crate::chroma::fill_chroma;
use crate::luma::fill_luma;
use mix_base::{Bytes, ListOf, NoMemory};
use mix_model::Picture;
use std::alloc::Global;

/// The bytes of a picture as libobs names them `VIDEO_FORMAT_RGBA`: red, green, blue and alpha of
/// each pixel, row by row.
pub fn raw_rgba(alloc: Global, picture: &Picture) -> Result<Bytes, NoMemory>
    requires whole { IsTrue (is_picture picture.now) }
    ensures value { IfOk result (λ bytes. bytes ≡ picture.now.rgba) }
    ensures length { IfOk result (λ bytes.
        length bytes ≡ 4 * (picture.now.width * picture.now.height)) }
{
    let bytes = Vec::from_slice(alloc, picture.rgba.as_slice())?;
    Ok(ListOf::from_vec(bytes))
}

/// Fills the three planes of a picture.
fn fill_planes(bytes: &mut [u8], picture: &Picture)
    requires whole { IsTrue (is_picture picture.now) }
    requires even_width { picture.now.width % 2 ≡ 0 }
    requires even_height { picture.now.height % 2 ≡ 0 }
    requires length { length bytes.old ≡ 3 * (picture.now.width * picture.now.height) / 2 }
    ensures { bytes.new ≡ i420_of picture.now }
{
    let pixels = picture.width as usize * picture.height as usize;
    let (luma, chroma) = bytes.split_at_mut(pixels);
    let squares = pixels / 4;
    let (blue, red) = chroma.split_at_mut(squares);
    fill_luma(luma, picture);
    fill_chroma(blue, red, picture);
}

/// The bytes of a picture as libobs names them `VIDEO_FORMAT_I420`: the planes Y, U and V one after
/// the other, row by row, in the colours of BT.601 and the studio's range.
pub fn raw_i420(alloc: Global, picture: &Picture) -> Result<Bytes, NoMemory>
    requires whole { IsTrue (is_picture picture.now) }
    requires even_width { picture.now.width % 2 ≡ 0 }
    requires even_height { picture.now.height % 2 ≡ 0 }
    ensures value { IfOk result (λ bytes. bytes ≡ i420_of picture.now) }
    ensures length { IfOk result (λ bytes.
        length bytes ≡ 3 * (picture.now.width * picture.now.height) / 2) }
{
    let pixels = picture.rgba.as_slice().len() / 4;
    let mut bytes = vec![in alloc; 0; pixels + pixels / 2]?;
    fill_planes(bytes.as_mut_slice(), picture);
    Ok(ListOf::from_vec(bytes))
}
