//! Plans of roots.
ghost use Rattle.std.specs.Prelude.{◌≡◌, IfOk, IsTrue};
ghost use Rattle.std.specs.List.{list_all};
ghost use Rattle.mix_model.specs.Lookups.{has_row};
ghost use Rattle.mix_model.specs.Values.{is_canvas};
ghost use Rattle.mix_model.specs.Drawing.{depth};
ghost use Rattle.mix_model.specs.Plans.{is_draw};
ghost use Rattle.mix_plan.specs.Listed.{plan_of};
ghost use Rattle.mix_plan.specs.Seen.{is_sound};
ghost use Rattle.mix_plan.specs.Laws.{IsDrawing, has_since_of};

use crate::listing::Listing;
use crate::rows::list_row;
use mix_base::{NoMemory, Serial};
use mix_model::{Blend, DrawList, Tree};
use std::alloc::Global;

/// Deeper than any scene or group may lie.
const DEPTH: u32 = 17;

/// The draws of the roots, the first at the bottom: one for each way through visible items down to an
/// input with pixels. Its steps are the items of the way, from the outside in. Nothing is drawn of a tone.
///
/// `roots` are rows of the tree; `canvas` is width and height in pixels.
pub fn plan<T: Tree>(
    alloc: Global,
    tree: &T,
    roots: &[Serial],
    canvas: (u32, u32),
) -> Result<DrawList, NoMemory>
    requires roots { IsTrue (list_all (has_row (T.rows tree.now)) roots.now) }
    requires canvas { IsTrue (is_canvas canvas) }
    ensures value { IfOk result (λ draws. draws ≡ plan_of (T.rows tree.now) canvas roots.now) }
    ensures drawn { IfOk result (λ draws. IsDrawing (T.rows tree.now) canvas roots.now draws) }
    ensures valid { IfOk result (λ draws. IsTrue (list_all is_draw draws)) }
    ensures since { IfOk result (λ draws. IsTrue (list_all (has_since_of (T.rows tree.now)) draws)) }
{
    list_roots(alloc, tree, roots, canvas)
}

/// Lists the roots one after the other.
fn list_roots<T: Tree>(
    alloc: Global,
    tree: &T,
    roots: &[Serial],
    canvas: (u32, u32),
) -> Result<DrawList, NoMemory>
    requires roots { IsTrue (list_all (has_row (T.rows tree.now)) roots.now) }
    requires canvas { IsTrue (is_canvas canvas) }
    ensures value { IfOk result (λ draws. draws ≡ plan_of (T.rows tree.now) canvas roots.now) }
    ensures sound { IfOk result
        (λ draws. IsTrue (list_all (is_sound (T.rows tree.now) canvas depth) roots.now)) }
{
    let mut listing = Listing::new(alloc);
    for root in roots {
        let Ok(()) = list_row(
            alloc,
            tree,
            canvas,
            DEPTH,
            *root,
            Blend::Normal,
            &mut listing,
        ) else {
            drop(listing);
            return Err(NoMemory);
        };
    }
    Ok(listing.into_draws())
}
