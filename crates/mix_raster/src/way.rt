//! Where the columns and the rows of a band lead in the source of a draw.
ghost use Rattle.std.specs.Prelude.{◌≡◌, ◌+◌, ◌<◌, ◌≤◌, ◌^◌, length, IsTrue, IfOk};
ghost use Rattle.mix_model.specs.Plans.{is_draw};
ghost use Rattle.mix_model.specs.Sizes.{size_of};
ghost use Rattle.mix_raster.specs.Spans.{IsSpan};
ghost use Rattle.mix_raster.specs.Ways.{across_side, down_side, column_led, row_led, IsLed};

use crate::band::Band;
use crate::lead::{Lead, span_of};
use crate::repeats::times_of;
use crate::turns::exchanges;
use mix_base::NoMemory;
use mix_model::Draw;
use std::alloc::Global;

/// Which columns and rows of a band lead to the source of one draw, and where.
#[derive(Drop)]
pub(crate) struct Way {
    pub across: Lead,
    pub down: Lead,
    /// Whether columns lead to rows of the source, and rows to its columns.
    pub swap: bool,
    /// How often each place that columns lead to is repeated, or 0 where that isn't known.
    pub times: usize,
}

/// The sides of a draw's source that the columns, and that the rows, of a canvas lead along.
fn sides(draw: &Draw, swap: bool) -> (u32, u32)
    ensures across { result.0 ≡ across_side swap (size_of draw.now.settings (0, 0)) }
    ensures down { result.1 ≡ down_side swap (size_of draw.now.settings (0, 0)) }
{
    let (width, height) = draw.settings.size((0, 0));
    if swap {
        (height, width)
    } else {
        (width, height)
    }
}

/// Which columns lead to the source of a draw.
pub(crate) fn columns_of(draw: &Draw) -> (u32, u32)
    requires draw { IsTrue (is_draw draw.now) }
    ensures span { IsSpan result (column_led draw.now) }
{
    let steps = draw.steps.as_slice();
    span_of(steps, false, sides(draw, exchanges(steps)).0)
}

/// Which rows lead to the source of a draw.
pub(crate) fn rows_of(draw: &Draw) -> (u32, u32)
    requires draw { IsTrue (is_draw draw.now) }
    ensures span { IsSpan result (row_led draw.now) }
{
    let steps = draw.steps.as_slice();
    span_of(steps, true, sides(draw, exchanges(steps)).1)
}

impl Way {
    /// Room for the columns and rows of a band, which lead nowhere yet.
    pub fn new(alloc: Global, band: Band) -> Result<Way, NoMemory>
        ensures columns { IfOk result (λ way. length way.across.table.items ≡ band.width) }
        ensures rows { IfOk result (λ way. length way.down.table.items ≡ band.rows) }
    {
        let across = Lead::new(alloc, band.width)?;
        let down = Lead::new(alloc, band.rows)?;
        Ok(Way {
            across,
            down,
            swap: false,
            times: 0,
        })
    }

    /// Leads the columns and rows of a band to the source of a draw.
    pub fn lead(&mut self, draw: &Draw, band: Band)
        requires draw { IsTrue (is_draw draw.now) }
        requires columns { band.width ≤ length self.old.across.table.items }
        requires rows { band.rows ≤ length self.old.down.table.items }
        requires tall { band.top + band.rows < 2 ^ 32 }
        ensures led { IsLed self.new draw.now band }
        ensures columns { length self.new.across.table.items ≡ length self.old.across.table.items }
        ensures rows { length self.new.down.table.items ≡ length self.old.down.table.items }
    {
        let steps = draw.steps.as_slice();
        let swap = exchanges(steps);
        let (across, down) = sides(draw, swap);
        self.across.find(steps, false, across, 0, band.width);
        self.down.find(steps, true, down, band.top, band.rows);
        self.swap = swap;
        self.times = times_of(self.across.places());
    }
}
