//! A draw over a band of the canvas, row by row.
ghost use Rattle.std.specs.Prelude.{◌≡◌, ◌+◌, ◌*◌, ◌^◌, ◌≤◌, ◌<◌, length};
ghost use Rattle.std.specs.Prelude.{IfSome, IsTrue};
ghost use Rattle.mix_model.specs.Colours.{pixel_at};
ghost use Rattle.mix_model.specs.Plans.{is_draw, are_paintable, draw_over, draws_over};
ghost use Rattle.mix_raster.specs.Ways.{places_of, IsLed, IsShown};
ghost use Rattle.mix_raster.specs.Fills.{IsFilled, IsOpaque, IsPaintedAt};

use crate::band::Band;
use crate::fill::{Shown, show};
use crate::span::over_span;
use crate::way::Way;
use mix_model::Draw;

/// Paints the row of a band that is the given one of those that a way leads somewhere. `row` is room for
/// its pixels, and may show something already. It says what it shows then.
fn paint_row(
    canvas: &mut [u8],
    row: &mut [u8],
    way: &Way,
    draw: &Draw,
    tick: u64,
    band: Band,
    i: usize,
    shown: Option<Shown>,
) -> Shown
    requires draw { IsTrue (is_draw draw.now) }
    requires time { draw.now.since ≤ tick }
    requires way { IsLed way.now draw.now band }
    requires canvas { length canvas.old ≡ 4 * (band.width * band.rows) }
    requires opaque { IsOpaque (band.width, band.rows) canvas.old }
    requires row { length row.old ≡ 4 * band.width }
    requires within { i < way.now.down.count }
    requires shown { IfSome shown
        (IsShown draw.now tick way.now.swap (places_of way.now.across) row.old) }
    ensures shown { IsShown draw.now tick way.now.swap (places_of way.now.across) row.new result }
    ensures painted { IsPaintedAt tick draw.now band (way.now.down.first + i) canvas.old canvas.new }
{
    let line = way.down.places()[i];
    let y = way.down.first + i;
    let shown = show(
        row,
        draw,
        tick,
        way.swap,
        way.across.places(),
        way.times,
        line,
        shown,
    );
    let at = band.start(y) + 4 * way.across.first;
    over_span(canvas, row, at, way.across.count, draw.blend, shown.hides);
    shown
}

/// Paints a draw over a band whose columns and rows a way leads to its source.
fn paint_led(canvas: &mut [u8], row: &mut [u8], way: &Way, draw: &Draw, tick: u64, band: Band)
    requires draw { IsTrue (is_draw draw.now) }
    requires time { draw.now.since ≤ tick }
    requires way { IsLed way.now draw.now band }
    requires canvas { length canvas.old ≡ 4 * (band.width * band.rows) }
    requires opaque { IsOpaque (band.width, band.rows) canvas.old }
    requires row { length row.old ≡ 4 * band.width }
    ensures painted { IsFilled (band.width, band.rows) canvas.new (λ x y.
        draw_over tick x (band.top + y) (pixel_at band.width canvas.old x y) draw.now) }
{
    let mut shown = None;
    for i in 0..way.down.count {
        shown = Some(paint_row(canvas, row, way, draw, tick, band, i, shown));
    }
}

/// Paints a draw over a band. `row` is room for a row, `way` for its columns and rows.
fn paint_draw(canvas: &mut [u8], row: &mut [u8], way: &mut Way, draw: &Draw, tick: u64, band: Band)
    requires draw { IsTrue (is_draw draw.now) }
    requires time { draw.now.since ≤ tick }
    requires columns { band.width ≤ length way.old.across.table.items }
    requires rows { band.rows ≤ length way.old.down.table.items }
    requires canvas { length canvas.old ≡ 4 * (band.width * band.rows) }
    requires opaque { IsOpaque (band.width, band.rows) canvas.old }
    requires row { length row.old ≡ 4 * band.width }
    requires tall { band.top + band.rows < 2 ^ 32 }
    ensures painted { IsFilled (band.width, band.rows) canvas.new (λ x y.
        draw_over tick x (band.top + y) (pixel_at band.width canvas.old x y) draw.now) }
    ensures columns { length way.new.across.table.items ≡ length way.old.across.table.items }
    ensures rows { length way.new.down.table.items ≡ length way.old.down.table.items }
{
    way.lead(draw, band);
    paint_led(canvas, row, way, draw, tick, band);
}

/// Paints draws over a band, the first at the bottom.
pub(crate) fn paint_draws(
    canvas: &mut [u8],
    row: &mut [u8],
    way: &mut Way,
    draws: &[Draw],
    tick: u64,
    band: Band,
)
    requires draws { IsTrue (are_paintable tick draws.now) }
    requires columns { band.width ≤ length way.old.across.table.items }
    requires rows { band.rows ≤ length way.old.down.table.items }
    requires canvas { length canvas.old ≡ 4 * (band.width * band.rows) }
    requires opaque { IsOpaque (band.width, band.rows) canvas.old }
    requires row { length row.old ≡ 4 * band.width }
    requires tall { band.top + band.rows < 2 ^ 32 }
    ensures painted { IsFilled (band.width, band.rows) canvas.new (λ x y.
        draws_over tick x (band.top + y) (pixel_at band.width canvas.old x y) draws.now) }
    ensures columns { length way.new.across.table.items ≡ length way.old.across.table.items }
    ensures rows { length way.new.down.table.items ≡ length way.old.down.table.items }
{
    for draw in draws {
        paint_draw(canvas, row, way, draw, tick, band);
    }
}
