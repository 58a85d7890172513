//! Which rows walks reach.
ghost use Rattle.std.specs.Prelude.{◌≡◌, false, length, map, flat_map, option_to_list, replicate};
ghost use Rattle.std.specs.List.{list_any};
ghost use Rattle.mix_model.specs.Lookups.{named_by};
ghost use Rattle.mix_model.specs.Walks.{is_active, is_showing};
ghost use Rattle.mix_store.specs.Searched.{RowsRise, flagged_also, reached_in};

use crate::search::{flag_walked, leads_to, row_at};
use crate::sources::{Channel, Sources};
use mix_base::Serial;
use mix_model::Row;

/// Puts off every flag.
fn turn_off(flags: &mut [bool])
    ensures { flags.new ≡ replicate (length flags.old) false }
{
    flags.fill(false);
}

/// Puts on the flags of the rows to which a walk leads from this root.
#[tactic(auto, unfolding(crate::specs::Searched::reached_in))]
fn flag_from(rows: &[Row], root: Option<Serial>, flags: &mut [bool])
    requires each { length flags.old ≡ length rows.now }
    requires rising { RowsRise rows.now }
    ensures { flags.new ≡
        flagged_also (reached_in rows.now (option_to_list root)) rows.now flags.old }
{
    if let Some(serial) = root {
        flag_walked(rows, 17, serial, flags);
    }
}

/// Puts on the flags of the rows to which a walk leads from what the channels name.
fn flag_from_channels(rows: &[Row], channels: &[Channel], flags: &mut [bool])
    requires each { length flags.old ≡ length rows.now }
    requires rising { RowsRise rows.now }
    ensures { flags.new ≡
        flagged_also (reached_in rows.now (flat_map named_by channels.now)) rows.now flags.old }
{
    for channel in channels {
        flag_from(rows, channel.0, flags);
        flag_from(rows, channel.1, flags);
    }
}

/// Whether a walk leads to the row from this root.
#[tactic(auto, unfolding(crate::specs::Searched::reached_in))]
fn is_led_from(rows: &[Row], root: &Option<Serial>, serial: Serial) -> bool
    requires { RowsRise rows.now }
    ensures { result ≡ reached_in rows.now (option_to_list root.now) serial }
{
    match root {
        Some(root) => leads_to(rows, 17, *root, serial),
        None => false,
    }
}

/// Whether a walk leads to the row from what the channel names.
#[tactic(auto, using(crate::proofs::FlagLemmas::reached_both))]
fn is_led_by(rows: &[Row], channel: &Channel, serial: Serial) -> bool
    requires { RowsRise rows.now }
    ensures { result ≡ reached_in rows.now (named_by channel.now) serial }
{
    is_led_from(rows, &channel.0, serial) || is_led_from(rows, &channel.1, serial)
}

/// Whether a walk leads to the row from what the channels name.
fn is_led_by_channels(rows: &[Row], channels: &[Channel], serial: Serial) -> bool
    requires { RowsRise rows.now }
    ensures { result ≡ list_any (λ c. reached_in rows.now (named_by c) serial) channels.now }
{
    channels
        .iter()
        .any(|channel| is_led_by(rows, channel, serial))
}

impl Sources {
    #[tactic(auto, using(crate::proofs::RootLemmas::active_reached))]
    pub fn is_active(&self, serial: Serial) -> bool
        ensures { result ≡ is_active self.now serial }
    {
        let rows = self.rows.as_slice();
        row_at(rows, serial).is_some() && is_led_by_channels(rows, &self.channels, serial)
    }

    #[tactic(auto, using(crate::proofs::RootLemmas::showing_reached))]
    pub fn is_showing(&self, serial: Serial) -> bool
        ensures { result ≡ is_showing self.now serial }
    {
        let rows = self.rows.as_slice();
        row_at(rows, serial).is_some()
            && (is_led_by_channels(rows, &self.channels, serial)
                || is_led_from(rows, &self.preview_row(), serial))
    }

    /// Sets each flag to whether its row is active.
    pub fn flag_active(&self, flags: &mut [bool])
        requires { length flags.old ≡ length self.now.rows }
        ensures { flags.new ≡ map (λ r. is_active self.now r.serial) self.now.rows }
    {
        turn_off(flags);
        flag_from_channels(self.rows.as_slice(), &self.channels, flags);
    }

    /// Sets each flag to whether its row is showing.
    pub fn flag_showing(&self, flags: &mut [bool])
        requires { length flags.old ≡ length self.now.rows }
        ensures { flags.new ≡ map (λ r. is_showing self.now r.serial) self.now.rows }
    {
        turn_off(flags);
        flag_from_channels(self.rows.as_slice(), &self.channels, flags);
        flag_from(self.rows.as_slice(), self.preview_row(), flags);
    }
}
