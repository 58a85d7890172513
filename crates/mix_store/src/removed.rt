//! A source that is removed.
ghost use Rattle.std.specs.Prelude.{◌≡◌, ◌==◌, filter, map, not};
ghost use Rattle.mix_model.specs.Sets.{without};
ghost use Rattle.mix_model.specs.Rows.{shows};
ghost use Rattle.mix_model.specs.Items.{without_child};
ghost use Rattle.mix_model.specs.Edits.{emptied_of, source_removed};

use crate::held::names;
use crate::row_edit::items_taken;
use crate::sources::{Channel, Sources};
use mix_base::{ListOf, Serial};
use mix_model::{Item, Row};
use std::alloc::Global;

/// Takes out the items that show the source.
fn take_shown(items: &mut Vec<Item>, serial: Serial)
    ensures { items.new.items ≡ filter (λ i. not (shows serial i)) items.old.items }
{
    items.retain(|item| item.child.0 != serial.0);
}

/// Takes the serial out of the list.
fn take_serial(list: &mut Vec<Serial>, serial: Serial)
    ensures { list.new.items ≡ without serial list.old.items }
{
    list.retain(|listed| listed.0 != serial.0);
}

/// Takes out the items of the row that show the source.
#[tactic(auto, unfolding(mix_model::specs::Items::without_child))]
fn take_children(alloc: Global, row: &mut Row, serial: Serial)
    ensures { row.new ≡ without_child serial row.old }
{
    let mut items = items_taken(alloc, row);
    take_shown(&mut items, serial);
    row.items = ListOf::from_vec(items);
}

/// Takes out the items of all rows that show the source.
fn take_users(alloc: Global, rows: &mut Vec<Row>, serial: Serial)
    ensures { rows.new.items ≡ map (without_child serial) rows.old.items }
{
    for index in 0..rows.len() {
        let row = &mut rows[index];
        take_children(alloc, row, serial);
    }
}

fn emptied(channel: &Channel, serial: Serial) -> Channel
    ensures { result ≡ emptied_of serial channel.now }
{
    if names(*channel, serial) {
        (None, None)
    } else {
        *channel
    }
}

/// Empties the channels that name the source.
fn empty_channels(channels: &mut [Channel; 64], serial: Serial)
    ensures { channels.new ≡ map (emptied_of serial) channels.old }
{
    for index in 0..64 {
        channels[index] = emptied(&channels[index], serial);
    }
}

impl Sources {
    /// Takes a source from the registry, the channels and every item.
    pub fn remove_source(&mut self, alloc: Global, serial: Serial)
        ensures { self.new ≡ source_removed serial self.old }
    {
        take_users(alloc, &mut self.rows, serial);
        empty_channels(&mut self.channels, serial);
        take_serial(&mut self.scenes, serial);
        take_serial(&mut self.inputs, serial);
    }
}
