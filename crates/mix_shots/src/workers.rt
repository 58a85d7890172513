//! Pictures that several workers paint.
use crate::canvases::side_in;
use crate::runs::picture_text;
use crate::shots::shot_of;
use mix_base::NoMemory;
use mix_raster::paint_rows;
use mix_tables::{Trouble, cell};
use std::alloc::Global;
use std::thread::Threads;

/// Goes through the lines of the table of pictures that several workers paint, as through any other
/// table: workers are had only where threads are, which no other table wants. Cells: the pixels; the
/// width and the height of the canvas, `t` and `n`, how many workers paint, and the draws.
pub fn go_by_workers<R: Threads + Sync + Print>(
    rt: &R,
    alloc: Global,
    text: &str,
) -> Result<(), Trouble> {
    let mut all: u64 = 0;
    let mut held: u64 = 0;
    for line in text.lines() {
        if !line.is_empty() && !line.starts_with('#') {
            all = all.saturating_add(1);
            if holds(rt, alloc, line, all)? {
                held = held.saturating_add(1);
            }
        }
    }
    println!(rt; "workers: {held} of {all}")?;
    Ok(())
}

/// Whether a case holds; where it doesn't, that is written. Cases are counted from 1.
fn holds<R: Threads + Sync + Print>(
    rt: &R,
    alloc: Global,
    line: &str,
    case: u64,
) -> Result<bool, Trouble> {
    let wanted = cell(line, 0);
    let found = found(rt, alloc, line)?;
    let same = found.as_str() == wanted;
    if !same {
        println!(rt; "workers case {case}: wanted {wanted}, found {found}")?;
    }
    drop(found);
    Ok(same)
}

fn found<R: Threads + Sync>(rt: &R, alloc: Global, line: &str) -> Result<String, NoMemory> {
    let canvas = (side_in(line, 1), side_in(line, 2));
    let t = side_in(line, 3);
    let n = side_in(line, 4);
    let workers = side_in(line, 5);
    if n <= t || workers == 0 || 16 < workers {
        return Ok(String::from_str(alloc, "no weights or no workers")?);
    }
    let shot = shot_of(alloc, line, 6, t, n)?;
    let picture = paint_rows(rt, alloc, &shot, 0, canvas, workers);
    drop(shot);
    let picture = picture?;
    let text = picture_text(alloc, &picture, canvas);
    drop(picture);
    text
}
