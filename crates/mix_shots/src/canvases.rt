//! Canvases that the lines of a table give.
ghost use Rattle.std.specs.Prelude.{IfSome, IsTrue};
ghost use Rattle.mix_model.specs.Values.{is_canvas};

use mix_tables::{cell, number};

/// The canvas of which the cells from a place on are the width and the height.
#[tactic(auto, unfolding(mix_model::specs::Values::is_canvas))]
pub fn canvas_in(line: &str, place: usize) -> Option<(u32, u32)>
    ensures { IfSome result (λ canvas. IsTrue (is_canvas canvas)) }
{
    let width = side_in(line, place);
    let height = side_in(line, place.saturating_add(1));
    if 1 <= width && width <= 4096 && 1 <= height && height <= 4096 && width * height <= 2_088_960 {
        Some((width, height))
    } else {
        None
    }
}

/// A number of a cell, and the greatest where it is greater.
pub fn side_in(line: &str, place: usize) -> u32 {
    u32::try_from(number(line, place)).unwrap_or(u32::MAX)
}

/// A whole number of a cell, and 0 where it has none.
pub fn whole(line: &str, place: usize) -> i64 {
    cell(line, place).parse::<i64>().unwrap_or(0)
}
