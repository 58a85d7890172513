//! Pictures on the way from one to another.
ghost use Rattle.std.specs.Prelude.{◌≡◌, IfOk, IfSome, IsTrue};
ghost use Rattle.mix_model.specs.Pictures.{is_picture};

use crate::canvases::side_in;
use crate::runs::picture_text;
use mix_base::{ListOf, NoMemory};
use mix_model::Picture;
use mix_raster::mix_pictures;
use mix_tables::{Table, cell, decoded};
use std::alloc::Global;

/// Cells: the pixels; the width and the height, `t` and `n`, and the bytes of both pictures.
pub struct Mixes;

impl Table for Mixes {
    fn found(&self, alloc: Global, line: &str) -> Result<String, NoMemory> {
        let size = (side_in(line, 1), side_in(line, 2));
        let Some(from) = picture_in(alloc, cell(line, 5), size)? else {
            return Ok(String::from_str(alloc, "no picture")?);
        };
        let found = mixed(alloc, &from, line, size);
        drop(from);
        found
    }
}

fn mixed(alloc: Global, from: &Picture, line: &str, size: (u32, u32)) -> Result<String, NoMemory>
    requires whole { IsTrue (is_picture from.now) }
    requires width { from.now.width ≡ size.0 }
    requires height { from.now.height ≡ size.1 }
{
    let t = side_in(line, 3);
    let n = side_in(line, 4);
    if n <= t {
        return Ok(String::from_str(alloc, "no weights")?);
    }
    let Some(to) = picture_in(alloc, cell(line, 6), size)? else {
        return Ok(String::from_str(alloc, "no picture")?);
    };
    let picture = mix_pictures(alloc, from, &to, t, n);
    drop(to);
    let picture = picture?;
    let text = picture_text(alloc, &picture, size);
    drop(picture);
    text
}

/// A picture of this size, where a cell has as many bytes as it needs.
fn picture_in(alloc: Global, cell: &str, size: (u32, u32)) -> Result<Option<Picture>, NoMemory>
    ensures whole { IfOk result (λ all. IfSome all (λ p. IsTrue (is_picture p))) }
    ensures width { IfOk result (λ all. IfSome all (λ p. p.width ≡ size.0)) }
    ensures height { IfOk result (λ all. IfSome all (λ p. p.height ≡ size.1)) }
{
    let rgba = decoded(alloc, cell)?;
    let (width, height) = size;
    if width > 4096 || height > 4096 {
        return Ok(None);
    }
    if rgba.len() as u64 != 4 * (u64::from(width) * u64::from(height)) {
        return Ok(None);
    }
    Ok(Some(Picture {
        width,
        height,
        rgba: ListOf::from_vec(rgba),
    }))
}
