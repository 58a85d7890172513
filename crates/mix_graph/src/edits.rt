//! Edits of a graph that take no memory.
ghost use Rattle.std.specs.Prelude.{◌≡◌, ◌↔◌, ◌⊎◌, IsTrue, IsErr, OnOk, OnErr, not, take, ◌&&◌};
ghost use Rattle.std.specs.List.{list_any};
ghost use Rattle.mix_model.specs.Rows.{is_input, is_group};
ghost use Rattle.mix_model.specs.Lookups.{row_passes};
ghost use Rattle.mix_model.specs.Holders.{has_name, is_named, names};
ghost use Rattle.mix_model.specs.Values.{is_place, is_sound, are_settings};
ghost use Rattle.mix_model.specs.Marks.{edited};
ghost use Rattle.mix_model.specs.Edits.{item_removed, item_enabled, item_locked};
ghost use Rattle.mix_model.specs.Edits.{item_placed, item_moved, input_set, renamed, source_removed};
ghost use Rattle.mix_shape.specs.Refused.{is_missing, lacks_item};

use crate::{Graph, Missing};
use mix_base::{ItemId, Name, Serial};
use mix_model::{Blend, Place, Settings, Sound};
use mix_store::{Edit, ItemEdit, RowEdit};

/// Why a source isn't renamed; the causes are looked for in this order.
#[derive(Clone, Copy)]
pub enum Rename {
    /// The serial isn't that of a named row.
    Missing,
    /// The name belongs to a named row.
    Exists,
}

impl Graph {
    /// Takes an item out of its scene or group.
    #[tactic(auto, unfolding(mix_model::specs::Edits::item_removed))]
    pub fn remove_item(&mut self, parent: Serial, item: ItemId) -> Result<(), Missing>
        ensures ok { OnOk result (self.new ≡ edited (item_removed parent item) self.old) }
        ensures err { OnErr result (self.new ≡ self.old) }
        ensures missing { IsErr result ↔ IsTrue (lacks_item self.old.present parent item) }
    {
        if self.sources.lacks_item(parent, item) {
            return Err(Missing);
        }
        self.edit(Edit::Row(parent, RowEdit::Remove(item)));
        Ok(())
    }

    /// Enables an item, or disables it.
    #[tactic(auto, unfolding(mix_model::specs::Edits::item_enabled))]
    pub fn set_enabled(
        &mut self,
        parent: Serial,
        item: ItemId,
        enabled: bool,
    ) -> Result<(), Missing>
        ensures ok { OnOk result (self.new ≡ edited (item_enabled parent item enabled) self.old) }
        ensures err { OnErr result (self.new ≡ self.old) }
        ensures missing { IsErr result ↔ IsTrue (lacks_item self.old.present parent item) }
    {
        if self.sources.lacks_item(parent, item) {
            return Err(Missing);
        }
        self.edit(Edit::Row(parent, RowEdit::Change(item, ItemEdit::Enabled(enabled))));
        Ok(())
    }

    /// Locks an item, or unlocks it.
    #[tactic(auto, unfolding(mix_model::specs::Edits::item_locked))]
    pub fn set_locked(&mut self, parent: Serial, item: ItemId, locked: bool) -> Result<(), Missing>
        ensures ok { OnOk result (self.new ≡ edited (item_locked parent item locked) self.old) }
        ensures err { OnErr result (self.new ≡ self.old) }
        ensures missing { IsErr result ↔ IsTrue (lacks_item self.old.present parent item) }
    {
        if self.sources.lacks_item(parent, item) {
            return Err(Missing);
        }
        self.edit(Edit::Row(parent, RowEdit::Change(item, ItemEdit::Locked(locked))));
        Ok(())
    }

    /// Moves an item to an index of its scene or group, counted from 0 at the bottom; past the top
    /// it comes to lie on top.
    #[tactic(auto, unfolding(mix_model::specs::Edits::item_moved))]
    pub fn set_index(&mut self, parent: Serial, item: ItemId, index: u32) -> Result<(), Missing>
        ensures ok { OnOk result (self.new ≡ edited (item_moved parent item index) self.old) }
        ensures err { OnErr result (self.new ≡ self.old) }
        ensures missing { IsErr result ↔ IsTrue (lacks_item self.old.present parent item) }
    {
        if self.sources.lacks_item(parent, item) {
            return Err(Missing);
        }
        self.edit(Edit::Row(parent, RowEdit::Move(item, index)));
        Ok(())
    }

    /// Places an item.
    #[tactic(auto, unfolding(mix_model::specs::Edits::item_placed))]
    pub fn set_place(
        &mut self,
        parent: Serial,
        item: ItemId,
        place: Place,
        blend: Blend,
    ) -> Result<(), Missing>
        requires place { IsTrue (is_place place) }
        ensures ok { OnOk result
            (self.new ≡ edited (item_placed parent item place blend) self.old) }
        ensures err { OnErr result (self.new ≡ self.old) }
        ensures missing { IsErr result ↔ IsTrue (lacks_item self.old.present parent item) }
    {
        if self.sources.lacks_item(parent, item) {
            return Err(Missing);
        }
        self.edit(Edit::Row(
            parent,
            RowEdit::Change(item, ItemEdit::Placed(place, blend)),
        ));
        Ok(())
    }

    /// Sets an input.
    #[tactic(auto, unfolding(mix_model::specs::Edits::input_set))]
    pub fn set_input(
        &mut self,
        serial: Serial,
        settings: Settings,
        sound: Sound,
    ) -> Result<(), Missing>
        requires input { IsTrue (is_missing self.old.present serial) ⊎ IsTrue (row_passes
            self.old.present (λ r. is_input r.kind && are_settings r.kind settings) serial) }
        requires sound { IsTrue (is_sound sound) }
        ensures ok { OnOk result
            (self.new ≡ edited (input_set serial settings sound) self.old) }
        ensures err { OnErr result (self.new ≡ self.old) }
        ensures missing { IsErr result ↔ IsTrue (is_missing self.old.present serial) }
    {
        if !self.sources.is_named(serial) {
            drop(settings);
            return Err(Missing);
        }
        self.edit(Edit::Row(serial, RowEdit::Set(settings, sound)));
        Ok(())
    }

    /// Gives a source another name, which no named row has.
    #[tactic(auto, unfolding(mix_model::specs::Edits::renamed))]
    pub fn rename(&mut self, serial: Serial, name: Name) -> Result<(), Rename>
        ensures ok { OnOk result (self.new ≡ edited (renamed serial name) self.old) }
        ensures err { OnErr result (self.new ≡ self.old) }
        ensures missing { result ≡ Err Rename.Missing
            ↔ IsTrue (is_missing self.old.present serial) }
        ensures exists { result ≡ Err Rename.Exists
            ↔ IsTrue (is_named self.old.present serial && has_name self.old.present name) }
    {
        if !self.sources.is_named(serial) {
            return Err(Rename::Missing);
        }
        if self.sources.has_name(name.bytes()) {
            return Err(Rename::Exists);
        }
        self.edit(Edit::Row(serial, RowEdit::Rename(name)));
        Ok(())
    }

    /// Takes a source from the registry, the channels 1 to 63 and every item. The program no longer
    /// shows it.
    pub fn remove_source(&mut self, serial: Serial) -> Result<(), Missing>
        requires sort { IsTrue (is_missing self.old.present serial)
            ⊎ IsTrue (row_passes self.old.present (λ r. not (is_group r.kind)) serial) }
        requires program { IsTrue
            (not (list_any (names serial) (take 1 self.old.present.channels))) }
        ensures ok { OnOk result (self.new ≡ edited (source_removed serial) self.old) }
        ensures err { OnErr result (self.new ≡ self.old) }
        ensures missing { IsErr result ↔ IsTrue (is_missing self.old.present serial) }
    {
        if !self.sources.is_named(serial) {
            return Err(Missing);
        }
        self.edit(Edit::Remove(serial));
        Ok(())
    }
}
