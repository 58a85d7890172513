//! The picture of a shot by several workers, each of which paints a band.
ghost use Rattle.std.specs.Prelude.{◌≡◌, ◌+◌, ◌*◌, ◌≤◌, ◌<◌, ℕ, IsTrue, IfOk, OnOk};
ghost use Rattle.std.specs.Thread.{IsSync};
ghost use Rattle.mix_model.specs.Colours.{pixel_at};
ghost use Rattle.mix_model.specs.Plans.{is_shot, painted};
ghost use Rattle.mix_raster.specs.Fills.{IsReady, IsPainted};

use crate::band::Band;
use crate::painting::{paint_band, picture_of, room};
use mix_base::NoMemory;
use mix_model::{Picture, Shot};
use std::alloc::Global;
use std::thread::{Threads, join_mut};

/// How many of its first rows a band leaves to so many of all its workers.
fn rows_for(few: u32, workers: u32, rows: u32) -> u32
    requires some { 0 < workers }
    requires few { few ≤ workers }
    ensures within { result ≤ rows }
{
    (u64::from(rows) * u64::from(few) / u64::from(workers)) as u32
}

/// Paints a band of the picture of a shot over any opaque pixels, by so many workers at most.
#[cycle(bands)]
fn paint_bands<R: Threads + Sync>(
    rt: &R,
    alloc: Global,
    shot: &Shot,
    tick: u64,
    workers: u32,
    band: Band,
    rgba: &mut [u8],
) -> Result<(), NoMemory>
    requires ready { IsReady shot.now tick band rgba.old }
    ensures painted { OnOk result (IsPainted shot.now tick band rgba.new) }
{
    if workers < 2 {
        return paint_band(alloc, shot, tick, band, rgba);
    }
    let few = workers / 2;
    let (upper, lower) = band.split(rows_for(few, workers, band.rows));
    let bytes = 4 * upper.width as usize * upper.rows as usize;
    let (above, below) = rgba.split_at_mut(bytes);
    paint_both(
        rt,
        alloc,
        shot,
        tick,
        few,
        upper,
        above,
        workers - few,
        lower,
        below,
    )
}

/// Paints two bands beside each other.
#[cycle(bands)]
fn paint_both<R: Threads + Sync>(
    rt: &R,
    alloc: Global,
    shot: &Shot,
    tick: u64,
    few: u32,
    upper: Band,
    above: &mut [u8],
    many: u32,
    lower: Band,
    below: &mut [u8],
) -> Result<(), NoMemory>
    requires few { 0 < few }
    requires many { 0 < many }
    requires upper { IsReady shot.now tick upper above.old }
    requires lower { IsReady shot.now tick lower below.old }
    ensures upper { OnOk result (IsPainted shot.now tick upper above.new) }
    ensures lower { OnOk result (IsPainted shot.now tick lower below.new) }
{
    let mut first = || -> Result<(), NoMemory>
        requires { IsSync R.row × IsReady shot.now tick upper above.now }
        ensures { OnOk result (IsPainted shot.entry.now tick upper above.exit.now) }
    { paint_bands(rt, alloc, shot, tick, few, upper, above) };
    let mut second = || -> Result<(), NoMemory>
        requires { IsSync R.row × IsReady shot.now tick lower below.now }
        ensures { OnOk result (IsPainted shot.entry.now tick lower below.exit.now) }
    { paint_bands(rt, alloc, shot, tick, many, lower, below) };
    let (one, other) = join_mut(rt, &mut first, &mut second);
    one?;
    other
}

/// The picture that `paint` gives, painted by so many workers at most beside each other.
pub fn paint_rows<R: Threads + Sync>(
    rt: &R,
    alloc: Global,
    shot: &Shot,
    tick: u64,
    canvas: (u32, u32),
    workers: u32,
) -> Result<Picture, NoMemory>
    requires shot { IsTrue (is_shot tick shot.now) }
    requires some { 0 < workers }
    requires few { workers ≤ 16 }
    ensures value { IfOk result (λ picture. picture ≡ painted shot.now tick canvas) }
    ensures opaque { IfOk result (λ picture. (x y : ℕ) → x < canvas.0 → y < canvas.1 →
        (pixel_at canvas.0 picture.rgba x y).alpha ≡ 255) }
{
    let band = Band::of(canvas);
    let mut rgba = room(alloc, band)?;
    paint_bands(rt, alloc, shot, tick, workers, band, rgba.as_mut_slice())?;
    Ok(picture_of(canvas, rgba))
}
