//! Pictures that are painted.
use crate::canvases::side_in;
use crate::runs::picture_text;
use crate::shots::shot_of;
use mix_base::NoMemory;
use mix_raster::paint;
use mix_tables::Table;
use std::alloc::Global;

/// Cells: the pixels; the width and the height of the canvas, `t` and `n`, and the draws.
pub struct Pictures;

impl Table for Pictures {
    fn found(&self, alloc: Global, line: &str) -> Result<String, NoMemory> {
        let canvas = (side_in(line, 1), side_in(line, 2));
        let t = side_in(line, 3);
        let n = side_in(line, 4);
        if n <= t {
            return Ok(String::from_str(alloc, "no weights")?);
        }
        let shot = shot_of(alloc, line, 5, t, n)?;
        let picture = paint(alloc, &shot, 0, canvas);
        drop(shot);
        let picture = picture?;
        let text = picture_text(alloc, &picture, canvas);
        drop(picture);
        text
    }
}
