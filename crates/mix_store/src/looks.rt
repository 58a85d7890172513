//! What the sources are asked, and their plainest edits.
ghost use Rattle.std.specs.Prelude.{◌≡◌, ◌<◌, IsSomeAnd, MatchOption, None, slice_get};
ghost use Rattle.std.specs.Prelude.{slice_index_or, length, option_to_list};
ghost use Rattle.std.specs.List.{list_any};
ghost use Rattle.std.specs.Prelude.{find, option_copied};
ghost use Rattle.std.specs.Prelude.{IsTrue};
ghost use Rattle.mix_model.specs.Sets.{is_next};
ghost use Rattle.mix_model.specs.Rows.{has_id, serials_of};
ghost use Rattle.mix_model.specs.Lookups.{row_of, item_at, items_of};
ghost use Rattle.mix_store.specs.RowEdits.{row_edited};
ghost use Rattle.mix_model.specs.Edits.{channel_set, clock_set, row_changed};
ghost use Rattle.mix_model.specs.Views.{IsView};
ghost use Rattle.mix_shape.specs.Refused.{is_missing, lacks_item};

use crate::row_edit::{RowEdit, edit_at};
use crate::search::{place_of, row_at, serial_after};
use crate::sources::{Channel, Sources};
use mix_base::{ItemId, Serial};
use mix_model::{Item, RowView};
use std::alloc::Global;

impl Sources {
    /// Whether a serial is given that isn't that of a named row.
    pub fn is_missing(&self, given: &Option<Serial>) -> bool
        ensures { result ≡ list_any (is_missing self.now) (option_to_list given.now) }
    {
        match given {
            Some(serial) => !self.is_named(*serial),
            None => false,
        }
    }

    pub fn view(&self, serial: Serial) -> Option<RowView<'_>>
        ensures { MatchOption result (row_of self.now serial ≡ None)
            (λ view. IsSomeAnd (row_of self.now serial) (λ row. IsView row view)) }
    {
        let Some(row) = row_at(self.rows.as_slice(), serial) else {
            return None;
        };
        Some(RowView {
            serial: row.serial,
            name: &row.name,
            kind: row.kind,
            settings: &row.settings,
            sound: row.sound,
            since: row.since,
            items: row.items.as_slice().len() as u32,
            next_item: row.next_item,
        })
    }

    pub fn scene_at(&self, index: u32) -> Option<Serial>
        ensures { result ≡ slice_get self.now.scenes index }
    {
        self.scenes.as_slice().get(index as usize).copied()
    }

    pub fn channel(&self, channel: u32) -> Channel
        requires { channel < 64 }
        ensures { result ≡ slice_index_or self.now.channels channel result }
    {
        self.channels[channel as usize]
    }

    pub fn next_serial(&self) -> Serial
        ensures { result ≡ self.now.next_serial }
    {
        Serial(self.next_serial)
    }

    pub fn clock(&self) -> u64
        ensures { result ≡ self.now.clock }
    {
        self.clock
    }

    pub fn frames_in_flight(&self) -> usize
        ensures { result ≡ length self.now.frames }
    {
        self.frames.len()
    }

    pub fn dying(&self) -> u32
        ensures { result ≡ length self.now.dying }
    {
        self.dying.len() as u32
    }

    #[tactic(auto, unfolding(mix_model::specs::Edits::channel_set))]
    pub fn set_channel(&mut self, channel: u32, to: Channel)
        requires { channel < 64 }
        ensures { self.new ≡ channel_set channel to self.old }
    {
        self.channels[channel as usize] = to;
    }

    #[tactic(auto, unfolding(mix_model::specs::Edits::clock_set))]
    pub fn set_clock(&mut self, clock: u64)
        ensures { self.new ≡ clock_set clock self.old }
    {
        self.clock = clock;
    }

    /// The item of this id of a row.
    pub fn item(&self, parent: Serial, id: ItemId) -> Option<&Item>
        ensures { option_copied result ≡ item_at self.now parent id }
    {
        let Some(row) = row_at(self.rows.as_slice(), parent) else {
            return None;
        };
        item_of(row.items.as_slice(), id)
    }

    pub fn lacks_item(&self, parent: Serial, id: ItemId) -> bool
        ensures { result ≡ lacks_item self.now parent id }
    {
        !self.is_named(parent) || self.item(parent, id).is_none()
    }

    pub fn item_at(&self, parent: Serial, index: u32) -> Option<Item>
        ensures { result ≡ slice_get (items_of self.now parent) index }
    {
        let Some(row) = row_at(self.rows.as_slice(), parent) else {
            return None;
        };
        row.items.as_slice().get(index as usize).copied()
    }

    pub fn input_at(&self, index: u32) -> Option<Serial>
        ensures { result ≡ slice_get self.now.inputs index }
    {
        self.inputs.as_slice().get(index as usize).copied()
    }

    /// The least serial of a row above this one.
    pub fn row_after(&self, serial: Serial) -> Option<Serial>
        ensures { IsTrue (is_next serial (serials_of self.now.rows) result) }
    {
        serial_after(self.rows.as_slice(), serial)
    }

    /// Edits a row. It takes no memory.
    pub fn edit_row(&mut self, alloc: Global, serial: Serial, edit: RowEdit)
        ensures { self.new ≡ row_changed serial (row_edited edit) self.old }
    {
        let Some(at) = place_of(self.rows.as_slice(), serial) else {
            drop(edit);
            return;
        };
        edit_at(alloc, &mut self.rows, at, edit);
    }
}

/// The item of this id.
fn item_of(items: &[Item], id: ItemId) -> Option<&Item>
    ensures { option_copied result ≡ find (has_id id) items.now }
{
    items.iter().find(|item| item.id.0 == id.0)
}
