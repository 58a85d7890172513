//! The draws of rows, listed on the way down from the canvas.
ghost use Rattle.std.specs.Prelude.{◌≡◌, ◌++◌, OnOk, IsTrue, flat_map, length, IfOk};
ghost use Rattle.std.specs.List.{list_all};
ghost use Rattle.mix_model.specs.Lookups.{has_row, items_in, find_row};
ghost use Rattle.mix_model.specs.Rows.{has_items};
ghost use Rattle.mix_model.specs.Values.{is_canvas, is_place};
ghost use Rattle.mix_model.specs.Plans.{is_step};
ghost use Rattle.mix_plan.specs.Listed.{step_of, item_draws, listed};
ghost use Rattle.mix_plan.specs.Seen.{item_is_sound, is_sound};

use crate::listing::Listing;
use mix_base::{NoMemory, Serial};
use mix_model::{Blend, Item, Kind, Step, Tree};
use std::alloc::Global;

/// Whether this kind of source has items.
fn has_items(kind: Kind) -> bool
    ensures { result ≡ has_items kind }
{
    kind == Kind::Scene || kind == Kind::Group
}

/// The step through an item.
fn step_of<T: Tree>(tree: &T, canvas: (u32, u32), item: &Item) -> Step
    requires child { IsTrue (has_row (T.rows tree.now) item.now.child) }
    requires place { IsTrue (is_place item.now.place) }
    requires canvas { IsTrue (is_canvas canvas) }
    ensures value { result ≡ step_of (T.rows tree.now) canvas item.now }
    ensures valid { IsTrue (is_step result) }
{
    let (width, height) = tree.row(item.child).settings.size(canvas);
    Step {
        place: item.place,
        width,
        height,
    }
}

/// Lists a row, which an item of this blend mode shows, down through at most so many scenes and groups.
#[cycle(list)]
pub fn list_row<T: Tree>(
    alloc: Global,
    tree: &T,
    canvas: (u32, u32),
    deeper: u32,
    serial: Serial,
    blend: Blend,
    listing: &mut Listing,
) -> Result<(), NoMemory>
    requires known { IsTrue (has_row (T.rows tree.now) serial) }
    requires canvas { IsTrue (is_canvas canvas) }
    ensures steps { OnOk result (listing.new.steps.items ≡ listing.old.steps.items) }
    ensures draws { OnOk result (listing.new.draws.items ≡ listing.old.draws.items
        ++ listed (T.rows tree.now) canvas deeper listing.old.steps.items blend serial) }
    ensures sound { OnOk result (IsTrue (is_sound (T.rows tree.now) canvas deeper serial)) }
{
    if deeper == 0 {
        return Ok(());
    }
    let row = tree.row(serial);
    if !has_items(row.kind) {
        return listing.add(alloc, &row, blend);
    }
    list_items(alloc, tree, canvas, deeper - 1, serial, row.items, listing)
}

/// Lists the items of a scene or group, from bottom to top.
#[cycle(list)]
fn list_items<T: Tree>(
    alloc: Global,
    tree: &T,
    canvas: (u32, u32),
    deeper: u32,
    parent: Serial,
    count: u32,
    listing: &mut Listing,
) -> Result<(), NoMemory>
    requires count { count ≡ length (items_in (T.rows tree.now) parent) }
    requires canvas { IsTrue (is_canvas canvas) }
    ensures steps { OnOk result (listing.new.steps.items ≡ listing.old.steps.items) }
    ensures draws { OnOk result (listing.new.draws.items ≡ listing.old.draws.items
        ++ flat_map (item_draws (T.rows tree.now) canvas (listed (T.rows tree.now) canvas deeper)
        listing.old.steps.items) (items_in (T.rows tree.now) parent)) }
    ensures sound { OnOk result (IsTrue (list_all (item_is_sound (T.rows tree.now) canvas
        (is_sound (T.rows tree.now) canvas deeper)) (items_in (T.rows tree.now) parent))) }
{
    for index in 0..count {
        if let Some(item) = tree.item_at(parent, index) {
            list_item(alloc, tree, canvas, deeper, &item, listing)?;
        }
    }
    Ok(())
}

/// Lists what an item shows, one step further in. A hidden one shows nothing.
#[cycle(list)]
fn list_item<T: Tree>(
    alloc: Global,
    tree: &T,
    canvas: (u32, u32),
    deeper: u32,
    item: &Item,
    listing: &mut Listing,
) -> Result<(), NoMemory>
    requires child { IsTrue (has_row (T.rows tree.now) item.now.child) }
    requires place { IsTrue (is_place item.now.place) }
    requires canvas { IsTrue (is_canvas canvas) }
    ensures steps { OnOk result (listing.new.steps.items ≡ listing.old.steps.items) }
    ensures draws { OnOk result (listing.new.draws.items ≡ listing.old.draws.items
        ++ item_draws (T.rows tree.now) canvas (listed (T.rows tree.now) canvas deeper)
        listing.old.steps.items item.now) }
    ensures sound { OnOk result (IsTrue (item_is_sound (T.rows tree.now) canvas
        (is_sound (T.rows tree.now) canvas deeper) item.now)) }
{
    if !item.enabled {
        return Ok(());
    }
    listing.enter(step_of(tree, canvas, item))?;
    list_row(alloc, tree, canvas, deeper, item.child, item.blend, listing)?;
    listing.leave();
    Ok(())
}
