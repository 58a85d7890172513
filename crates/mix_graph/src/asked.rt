//! What a graph is asked.
ghost use Rattle.std.specs.Prelude.{◌≡◌, ◌<◌, IsSomeAnd, MatchOption, None, option_map, slice_get};
ghost use Rattle.std.specs.Prelude.{slice_index_or, length};
ghost use Rattle.mix_model.specs.Lookups.{row_of, items_of};
ghost use Rattle.mix_model.specs.Holders.{is_named, find_named, has_name};
ghost use Rattle.mix_model.specs.Views.{IsView};
ghost use Rattle.std.specs.Prelude.{IsTrue};
ghost use Rattle.mix_model.specs.Rows.{serials_of};
ghost use Rattle.mix_model.specs.Sets.{is_next};

use crate::Graph;
use mix_base::{Name, Serial, Text};
use mix_model::{Item, RowView};
use mix_store::Channel;

impl Graph {
    /// The named row of this name.
    pub fn find(&self, name: &Text) -> Option<Serial>
        ensures reply { result ≡ option_map (λ r. r.serial) (find_named self.now.present name.now) }
    {
        match self.sources.find_named(name.bytes()) {
            Some(row) => Some(row.serial),
            None => None,
        }
    }

    /// Whether a named row has this name.
    pub fn has_name(&self, name: &Name) -> bool
        ensures reply { result ≡ has_name self.now.present name.now }
    {
        self.sources.has_name(name.bytes())
    }

    /// The row of this serial, named or not.
    pub fn row(&self, serial: Serial) -> Option<RowView<'_>>
        ensures reply { MatchOption result (row_of self.now.present serial ≡ None)
            (λ view. IsSomeAnd (row_of self.now.present serial) (λ row. IsView row view)) }
    {
        self.sources.view(serial)
    }

    /// Whether the serial is that of a named row.
    pub fn named(&self, serial: Serial) -> bool
        ensures reply { result ≡ is_named self.now.present serial }
    {
        self.sources.is_named(serial)
    }

    /// A scene of the registry, by its index from 0.
    pub fn scene_at(&self, index: u32) -> Option<Serial>
        ensures reply { result ≡ slice_get self.now.present.scenes index }
    {
        self.sources.scene_at(index)
    }

    /// What a channel below 64 names, with both ends of a fade.
    pub fn channel(&self, channel: u32) -> Channel
        requires below { channel < 64 }
        ensures reply { result ≡ slice_index_or self.now.present.channels channel result }
    {
        self.sources.channel(channel)
    }

    /// The serial of the next source.
    pub fn next_serial(&self) -> Serial
        ensures reply { result ≡ self.now.present.next_serial }
    {
        self.sources.next_serial()
    }

    /// The clock of pictures.
    pub fn clock(&self) -> u64
        ensures reply { result ≡ self.now.present.clock }
    {
        self.sources.clock()
    }

    /// How many frames are in flight.
    pub fn frames(&self) -> usize
        ensures reply { result ≡ length self.now.present.frames }
    {
        self.sources.frames_in_flight()
    }

    /// How many rows die.
    pub fn dying(&self) -> u32
        ensures reply { result ≡ length self.now.present.dying }
    {
        self.sources.dying()
    }

    /// An input of the registry, by its index from 0.
    pub fn input_at(&self, index: u32) -> Option<Serial>
        ensures reply { result ≡ slice_get self.now.present.inputs index }
    {
        self.sources.input_at(index)
    }

    /// The least serial of a row above this one, none where there is none.
    pub fn row_after(&self, serial: Serial) -> Option<Serial>
        ensures reply { IsTrue (is_next serial (serials_of self.now.present.rows) result) }
    {
        self.sources.row_after(serial)
    }

    /// An item of a row, by its index from the bottom, counted from 0.
    pub fn item_at(&self, parent: Serial, index: u32) -> Option<Item>
        ensures reply { result ≡ slice_get (items_of self.now.present parent) index }
    {
        self.sources.item_at(parent, index)
    }
}
