//! A source, as a row.
ghost use Rattle.std.specs.Prelude.{◌≡◌, IfOk};

use crate::copies::copy_items;
use crate::{ItemList, Kind, Settings, Sound};
use mix_base::{Name, NoMemory, Serial};
use std::alloc::Global;

/// A source: a scene, a group or an input.
#[derive(Drop)]
pub struct Row {
    pub serial: Serial,
    pub name: Name,
    pub kind: Kind,
    pub settings: Settings,
    pub sound: Sound,
    /// The video clock when it last became active.
    pub since: u64,
    /// From bottom to top. Inputs have none.
    pub items: ItemList,
    /// The id of its next item.
    pub next_item: u32,
}

/// A source as a look at it shows it: its items are counted.
#[derive(Clone, Copy)]
pub struct RowView<'a> {
    pub serial: Serial,
    pub name: &'a Name,
    pub kind: Kind,
    pub settings: &'a Settings,
    pub sound: Sound,
    pub since: u64,
    pub items: u32,
    pub next_item: u32,
}

impl Row {
    pub fn copy(&self, alloc: Global) -> Result<Row, NoMemory>
        ensures value { IfOk result (λ copy. copy ≡ self.now) }
    {
        Ok(Row {
            serial: self.serial,
            name: self.name.share(),
            kind: self.kind,
            settings: self.settings.copy()?,
            sound: self.sound,
            since: self.since,
            items: copy_items(alloc, &self.items)?,
            next_item: self.next_item,
        })
    }
}
