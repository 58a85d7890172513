//! Edits of one row.
ghost use Rattle.std.specs.Prelude.{◌≡◌, ◌≤◌, ◌<◌, [], length, map, filter, not, if◌then◌else◌};
ghost use Rattle.std.specs.Prelude.{slice_set, slice_index_or};
ghost use Rattle.mix_model.specs.declared.row.Row.{Row};
ghost use Rattle.mix_model.specs.Rows.{has_id};
ghost use Rattle.mix_store.specs.RowEdits.{item_edited, row_edited};

use crate::moved::move_to;
use mix_base::{ItemId, ListOf, Name};
use mix_model::{Blend, Item, Place, Row, Settings, Sound};
use std::alloc::Global;
use std::mem;

/// What is changed of an item.
#[derive(Clone, Copy)]
pub enum ItemEdit {
    Enabled(bool),
    Locked(bool),
    Placed(Place, Blend),
}

/// What is changed of a row.
#[derive(Drop)]
pub enum RowEdit {
    /// An item goes.
    Remove(ItemId),
    /// An item comes to lie at an index.
    Move(ItemId, u32),
    /// An item is changed.
    Change(ItemId, ItemEdit),
    Set(Settings, Sound),
    Rename(Name),
}

/// Takes out the items of this id.
fn take_out(items: &mut Vec<Item>, id: ItemId)
    ensures { items.new.items ≡ filter (λ i. not (has_id id i)) items.old.items }
{
    items.retain(|item| item.id.0 != id.0);
}

fn edited_item(item: &Item, edit: &ItemEdit) -> Item
    ensures { result ≡ item_edited edit.now item.now }
{
    match edit {
        ItemEdit::Enabled(enabled) => Item {
            enabled: *enabled,
            ..*item
        },
        ItemEdit::Locked(locked) => Item {
            locked: *locked,
            ..*item
        },
        ItemEdit::Placed(place, blend) => Item {
            place: *place,
            blend: *blend,
            ..*item
        },
    }
}

/// Changes the items of this id.
fn change_items(items: &mut Vec<Item>, id: ItemId, edit: &ItemEdit)
    ensures { items.new.items
        ≡ map (λ i. if has_id id i then item_edited edit.now i else i) items.old.items }
{
    for index in 0..items.len() {
        let here = items[index].id;
        if here.0 == id.0 {
            items[index] = edited_item(&items[index], edit);
        }
    }
}

/// Takes the items of a row out of it.
pub fn items_taken(alloc: Global, row: &mut Row) -> Vec<Item>
    ensures items { result.items ≡ row.old.items }
    ensures rest { row.new ≡ record row.old { items = [] } }
{
    mem::replace(&mut row.items, ListOf::from_vec(Vec::new(alloc))).into_vec()
}

/// Edits a row. It takes no memory.
#[tactic(auto, unfolding(mix_model::specs::Items::without_item, mix_model::specs::Items::with_item_changed, mix_model::specs::Items::with_item_at))]
pub fn edit_row(alloc: Global, row: &mut Row, edit: RowEdit)
    ensures { row.new ≡ row_edited edit row.old }
{
    match edit {
        RowEdit::Remove(id) => {
            let mut items = items_taken(alloc, row);
            take_out(&mut items, id);
            row.items = ListOf::from_vec(items);
        }
        RowEdit::Move(id, index) => {
            let mut items = items_taken(alloc, row);
            move_to(&mut items, id, index as usize);
            row.items = ListOf::from_vec(items);
        }
        RowEdit::Change(id, edit) => {
            let mut items = items_taken(alloc, row);
            change_items(&mut items, id, &edit);
            row.items = ListOf::from_vec(items);
        }
        RowEdit::Set(settings, sound) => {
            row.settings = settings;
            row.sound = sound;
        }
        RowEdit::Rename(name) => {
            row.name = name;
        }
    }
}

/// Edits the row at an index.
pub fn edit_at(alloc: Global, rows: &mut Vec<Row>, at: usize, edit: RowEdit)
    requires { at < length rows.old.items }
    ensures { (d : Row) → rows.new.items
        ≡ slice_set rows.old.items at (row_edited edit (slice_index_or rows.old.items at d)) }
{
    let row = &mut rows[at];
    edit_row(alloc, row, edit);
}
