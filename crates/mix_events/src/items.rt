//! The fields of the events on items of scenes and groups.
ghost use Rattle.std.specs.Prelude.{◌≡◌, ◌<◌, ◌^◌, OnOk, codes, pos};
ghost use Rattle.mix_base.specs.declared.json.Json as json;
ghost use Rattle.mix_json.specs.Growing.{more_field, more_fields, more_item, more_items};
ghost use Rattle.mix_json.specs.Trees.{obj_of};
ghost use Rattle.mix_events.specs.Sayable.{IsShort};
ghost use Rattle.mix_events.specs.ItemEvents.{indexed_from, indexed_item, item_created};
ghost use Rattle.mix_events.specs.ItemEvents.{item_enabled, item_locked, item_removed};
ghost use Rattle.mix_events.specs.ItemEvents.{item_transformed, items_reindexed, placed_side};
ghost use Rattle.mix_events.specs.ItemEvents.{crop_fields, index_fields, position_fields};
ghost use Rattle.mix_events.specs.ItemEvents.{size_fields, source_fields, transform_fields};

use crate::scenes::with_scene;
use crate::uuids::with_uuid;
use mix_base::{ItemId, Name, NoMemory, Serial};
use mix_json::JsonText;
use mix_model::{IdList, Place};

fn with_item(out: &mut JsonText, item: ItemId) -> Result<(), NoMemory>
    ensures value { OnOk result
        (out.new ≡ more_field (codes "sceneItemId") (json.Int (pos item)) out.old) }
{
    out.int("sceneItemId", i64::from(item.0))
}

fn with_index(out: &mut JsonText, index: u32) -> Result<(), NoMemory>
    ensures value { OnOk result
        (out.new ≡ more_field (codes "sceneItemIndex") (json.Int (pos index)) out.old) }
{
    out.int("sceneItemIndex", i64::from(index))
}

/// With the name and the UUID of the source that an item shows.
#[tactic(auto, unfolding(crate::specs::ItemEvents::source_fields))]
fn with_source(out: &mut JsonText, source: &Name, serial: Serial) -> Result<(), NoMemory>
    requires { IsShort serial }
    ensures value { OnOk result (out.new ≡ more_fields (source_fields source.now serial) out.old) }
{
    out.text("sourceName", source.as_str())?;
    with_uuid(out, "sourceUuid", serial)
}

pub fn created(
    out: &mut JsonText,
    item: ItemId,
    index: u32,
    scene: &Name,
    serial: Serial,
    source: &Name,
    source_serial: Serial,
) -> Result<(), NoMemory>
    requires scene { IsShort serial }
    requires source { IsShort source_serial }
    ensures value { OnOk result (out.new ≡ more_fields
        (item_created item index scene.now serial source.now source_serial) out.old) }
{
    with_item(out, item)?;
    with_index(out, index)?;
    with_scene(out, scene, serial)?;
    with_source(out, source, source_serial)
}

#[tactic(auto, unfolding(crate::specs::ItemEvents::item_removed), using(mix_json::proofs::TextLemmas::more_fields_append))]
pub fn removed(
    out: &mut JsonText,
    item: ItemId,
    scene: &Name,
    serial: Serial,
    source: &Name,
    source_serial: Serial,
) -> Result<(), NoMemory>
    requires scene { IsShort serial }
    requires source { IsShort source_serial }
    ensures value { OnOk result (out.new
        ≡ more_fields (item_removed item scene.now serial source.now source_serial) out.old) }
{
    with_item(out, item)?;
    with_scene(out, scene, serial)?;
    with_source(out, source, source_serial)
}

#[tactic(auto, unfolding(crate::specs::ItemEvents::index_fields))]
fn with_both(out: &mut JsonText, item: ItemId, index: u64) -> Result<(), NoMemory>
    requires { index < 2 ^ 63 }
    ensures value { OnOk result (out.new ≡ more_fields (index_fields item index) out.old) }
{
    with_item(out, item)?;
    out.int("sceneItemIndex", whole(index))
}

#[tactic(auto, using(crate::proofs::FieldLemmas::index_closed))]
fn indexed(out: &mut JsonText, item: ItemId, index: u64) -> Result<(), NoMemory>
    requires { index < 2 ^ 63 }
    ensures value { OnOk result (out.new ≡ more_item (indexed_item item index) out.old) }
{
    out.open()?;
    with_both(out, item, index)?;
    out.close()
}

fn all_indexed(out: &mut JsonText, items: &[ItemId]) -> Result<(), NoMemory>
    ensures value { OnOk result (out.new ≡ more_items (indexed_from 0 items.now) out.old) }
{
    let mut index: u64 = 0;
    for item in items {
        indexed(out, *item, index)?;
        index += 1;
    }
    Ok(())
}

#[tactic(auto, using(mix_json::proofs::TextLemmas::list_under))]
fn with_items(out: &mut JsonText, items: &[ItemId]) -> Result<(), NoMemory>
    ensures value { OnOk result
        (out.new ≡ more_field (codes "sceneItems") (json.List (indexed_from 0 items.now)) out.old) }
{
    out.key("sceneItems")?;
    out.open_list()?;
    all_indexed(out, items)?;
    out.close_list()
}

#[tactic(auto, unfolding(crate::specs::ItemEvents::items_reindexed))]
pub fn reindexed(
    out: &mut JsonText,
    items: &IdList,
    scene: &Name,
    serial: Serial,
) -> Result<(), NoMemory>
    requires { IsShort serial }
    ensures value { OnOk result
        (out.new ≡ more_fields (items_reindexed items.now scene.now serial) out.old) }
{
    with_items(out, items.as_slice())?;
    with_scene(out, scene, serial)
}

#[tactic(auto, unfolding(crate::specs::ItemEvents::item_enabled))]
pub fn enabled(
    out: &mut JsonText,
    enabled: bool,
    item: ItemId,
    scene: &Name,
    serial: Serial,
) -> Result<(), NoMemory>
    requires { IsShort serial }
    ensures value { OnOk result
        (out.new ≡ more_fields (item_enabled enabled item scene.now serial) out.old) }
{
    out.truth("sceneItemEnabled", enabled)?;
    with_item(out, item)?;
    with_scene(out, scene, serial)
}

#[tactic(auto, unfolding(crate::specs::ItemEvents::item_locked))]
pub fn locked(
    out: &mut JsonText,
    item: ItemId,
    locked: bool,
    scene: &Name,
    serial: Serial,
) -> Result<(), NoMemory>
    requires { IsShort serial }
    ensures value { OnOk result
        (out.new ≡ more_fields (item_locked item locked scene.now serial) out.old) }
{
    with_item(out, item)?;
    out.truth("sceneItemLocked", locked)?;
    with_scene(out, scene, serial)
}

/// A number as a signed one.
#[tactic(auto, using(std::proofs::lemmas::Int::to_z_pos))]
fn whole(number: u64) -> i64
    requires { number < 2 ^ 63 }
    ensures { result ≡ pos number }
{
    number as i64
}

/// The pixels of a side after cropping at its two ends and scaling.
fn placed_side(side: u32, first: u32, last: u32, scale: u8) -> u64
    ensures value { result ≡ placed_side side first last scale }
    ensures bound { result < 2 ^ 40 }
{
    let left = u64::from(side).saturating_sub(u64::from(first) + u64::from(last));
    left * u64::from(scale)
}

fn with_crops(out: &mut JsonText, place: &Place) -> Result<(), NoMemory>
    ensures value { OnOk result (out.new ≡ more_fields (crop_fields place.now) out.old) }
{
    out.int("alignment", i64::from(place.align))?;
    out.int("cropBottom", i64::from(place.crop_bottom))?;
    out.int("cropLeft", i64::from(place.crop_left))?;
    out.int("cropRight", i64::from(place.crop_right))?;
    out.int("cropTop", i64::from(place.crop_top))
}

fn with_position(out: &mut JsonText, place: &Place, height: u32) -> Result<(), NoMemory>
    ensures value { OnOk result (out.new ≡ more_fields (position_fields place.now height) out.old) }
{
    let placed = placed_side(height, place.crop_top, place.crop_bottom, place.scale_y);
    out.int("height", whole(placed))?;
    out.int("positionX", i64::from(place.x))?;
    out.int("positionY", i64::from(place.y))?;
    out.int("rotation", 90 * i64::from(place.quarter))?;
    out.int("scaleX", i64::from(place.scale_x))?;
    out.int("scaleY", i64::from(place.scale_y))
}

fn with_size(out: &mut JsonText, place: &Place, width: u32, height: u32) -> Result<(), NoMemory>
    ensures value { OnOk result
        (out.new ≡ more_fields (size_fields place.now width height) out.old) }
{
    let placed = placed_side(width, place.crop_left, place.crop_right, place.scale_x);
    out.int("sourceHeight", i64::from(height))?;
    out.int("sourceWidth", i64::from(width))?;
    out.int("width", whole(placed))
}

/// A transform as it is answered: where an item stands, and how large its source is.
#[tactic(auto, unfolding(crate::specs::ItemEvents::transform_fields), using(mix_json::proofs::TextLemmas::more_fields_append))]
fn with_place(out: &mut JsonText, place: &Place, width: u32, height: u32) -> Result<(), NoMemory>
    ensures value { OnOk result
        (out.new ≡ more_fields (transform_fields place.now width height) out.old) }
{
    with_crops(out, place)?;
    with_position(out, place, height)?;
    with_size(out, place, width, height)
}

fn with_transform(out: &mut JsonText, place: &Place, size: (u32, u32)) -> Result<(), NoMemory>
    ensures value { OnOk result (out.new ≡ more_field (codes "sceneItemTransform")
        (json.Obj (obj_of (transform_fields place.now size.0 size.1))) out.old) }
{
    out.key("sceneItemTransform")?;
    out.open()?;
    with_place(out, place, size.0, size.1)?;
    out.close()
}

#[tactic(auto, unfolding(crate::specs::ItemEvents::item_transformed))]
pub fn transformed(
    out: &mut JsonText,
    item: ItemId,
    place: &Place,
    size: (u32, u32),
    scene: &Name,
    serial: Serial,
) -> Result<(), NoMemory>
    requires { IsShort serial }
    ensures value { OnOk result (out.new
        ≡ more_fields (item_transformed item place.now size.0 size.1 scene.now serial) out.old) }
{
    with_item(out, item)?;
    with_transform(out, place, size)?;
    with_scene(out, scene, serial)
}
