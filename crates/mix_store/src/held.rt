//! Whether something holds a source, and which sources have a name.
ghost use Rattle.std.specs.Prelude.{◌≡◌, ◌&&◌, find, option_copied, bytes_eq};
ghost use Rattle.std.specs.List.{list_any};
ghost use Rattle.mix_model.specs.Sets.{has};
ghost use Rattle.mix_model.specs.Rows.{is_group};
ghost use Rattle.mix_model.specs.Lookups.{registry, row_of};
ghost use Rattle.mix_model.specs.Holders.{is_held, names, shows_some, is_on, lists, is_named_row};
ghost use Rattle.mix_model.specs.Holders.{is_named, find_named};
ghost use Rattle.mix_model.specs.Walks.{upgrade, preview_row};

use crate::kept::{Holding, InFlight};
use crate::search::{has, is_some_of, row_at};
use crate::sources::{Channel, Sources};
use mix_base::Serial;
use mix_model::{Kind, Row};

/// Whether the channel names the row.
pub fn names(channel: Channel, serial: Serial) -> bool
    ensures { result ≡ names serial channel }
{
    is_some_of(channel.0, serial) || is_some_of(channel.1, serial)
}

/// Whether an item of the row shows the other row.
pub fn shows_some(row: &Row, serial: Serial) -> bool
    ensures { result ≡ shows_some serial row.now }
{
    row.items
        .as_slice()
        .iter()
        .any(|item| item.child.0 == serial.0)
}

pub fn lists(frame: &InFlight, serial: Serial) -> bool
    ensures { result ≡ lists serial frame.now }
{
    has(frame.serials.as_slice(), serial)
}

fn is_named_by_some(channels: &[Channel], serial: Serial) -> bool
    ensures { result ≡ list_any (names serial) channels.now }
{
    channels.iter().any(|channel| names(*channel, serial))
}

pub fn is_shown_by_some(rows: &[Row], serial: Serial) -> bool
    ensures { result ≡ list_any (shows_some serial) rows.now }
{
    rows.iter().any(|row| shows_some(row, serial))
}

fn has_hold(holds: &[Holding], serial: Serial) -> bool
    ensures { result ≡ list_any (is_on serial) holds.now }
{
    holds.iter().any(|hold| hold.serial.0 == serial.0)
}

fn is_listed_by_some(frames: &[InFlight], serial: Serial) -> bool
    ensures { result ≡ list_any (lists serial) frames.now }
{
    frames.iter().any(|frame| lists(frame, serial))
}

fn is_group(kind: Kind) -> bool
    ensures { result ≡ is_group kind }
{
    matches!(kind, Kind::Group)
}

impl Sources {
    pub fn is_registered(&self, serial: Serial) -> bool
        ensures { result ≡ has serial (registry self.now) }
    {
        has(self.scenes.as_slice(), serial) || has(self.inputs.as_slice(), serial)
    }

    #[tactic(auto, unfolding(mix_model::specs::Holders::is_held))]
    pub fn is_held(&self, serial: Serial) -> bool
        ensures { result ≡ is_held self.now serial }
    {
        self.is_registered(serial)
            || is_named_by_some(&self.channels, serial)
            || is_shown_by_some(self.rows.as_slice(), serial)
            || has_hold(self.holds.as_slice(), serial)
            || is_listed_by_some(self.frames.as_slice(), serial)
    }

    #[tactic(auto, unfolding(mix_model::specs::Holders::is_named_row))]
    pub fn is_named_row(&self, row: &Row) -> bool
        ensures { result ≡ is_named_row self.now row.now }
    {
        self.is_registered(row.serial) || (is_group(row.kind) && self.is_held(row.serial))
    }

    pub fn row(&self, serial: Serial) -> Option<&Row>
        ensures { option_copied result ≡ row_of self.now serial }
    {
        row_at(self.rows.as_slice(), serial)
    }

    pub fn is_named(&self, serial: Serial) -> bool
        ensures { result ≡ is_named self.now serial }
    {
        match self.row(serial) {
            Some(row) => self.is_named_row(row),
            None => false,
        }
    }

    /// Whether the row is named, and this is its name.
    fn answers_to(&self, row: &Row, name: &[u8]) -> bool
        ensures { result ≡ (is_named_row self.now row.now && bytes_eq row.now.name name.now) }
    {
        row.name.bytes() == name && self.is_named_row(row)
    }

    /// The named row of this name.
    pub fn find_named(&self, name: &[u8]) -> Option<&Row>
        ensures { option_copied result ≡ find_named self.now name.now }
    {
        for row in self.rows.as_slice() {
            if self.answers_to(row, name) {
                return Some(row);
            }
        }
        None
    }

    /// The row itself while something holds it.
    #[tactic(auto, unfolding(mix_model::specs::Walks::upgrade))]
    pub fn upgrade(&self, serial: Serial) -> Option<Serial>
        ensures { result ≡ upgrade self.now serial }
    {
        if self.row(serial).is_some() && self.is_held(serial) {
            Some(serial)
        } else {
            None
        }
    }

    pub fn preview_row(&self) -> Option<Serial>
        ensures { result ≡ preview_row self.now }
    {
        match self.preview {
            Some(serial) => self.upgrade(serial),
            None => None,
        }
    }
}
