//! A small tree.
ghost use Rattle.std.specs.Prelude.{◌≡◌, ◌<◌, [], IfOk, IsTrue, find, length, option_copied, slice_get};
ghost use Rattle.std.specs.List.{list_all};
ghost use Rattle.mix_model.specs.Rows.{is_at};
ghost use Rattle.mix_model.specs.Views.{IsView};
ghost use Rattle.mix_model.specs.Lookups.{has_row, find_row, items_in};
ghost use Rattle.mix_test_pictures.specs.Small.{are_fine, shown, source, top_items, inner_items, group_items};
ghost use Rattle.mix_test_pictures.specs.Small.{small_rows};

use crate::trouble::Trouble;
use mix_base::{ItemId, ListOf, Name, NoMemory, Serial};
use mix_model::{Blend, Item, ItemList, Kind, Place, Row, RowView, Settings, Sound, Tree};
use std::alloc::Global;

/// Rows in a list.
#[derive(Drop)]
pub struct Small {
    rows: Vec<Row>,
    ghost fine: { IsTrue (are_fine rows.items) },
}

impl Tree for Small {
    ghost rows = { λ small. small.rows.items };

    fn row(&self, serial: Serial) -> RowView<'_> {
        match self.found(serial) {
            Some(row) => view(row),
            None => unreachable!(),
        }
    }

    fn item_at(&self, parent: Serial, index: u32) -> Option<Item> {
        self.item(parent, index)
    }
}

impl Small {
    /// Whether each serial is that of a row.
    pub fn are_rows(&self, serials: &[Serial]) -> bool
        ensures { result ≡ list_all (has_row self.now.rows.items) serials.now }
    {
        serials
            .iter()
            .all(|serial| row_at(self.rows.as_slice(), *serial).is_some())
    }

    fn found(&self, serial: Serial) -> Option<&Row>
        ensures { option_copied result ≡ find_row self.now.rows.items serial }
    {
        row_at(self.rows.as_slice(), serial)
    }

    fn item(&self, parent: Serial, index: u32) -> Option<Item>
        ensures { result ≡ slice_get (items_in self.now.rows.items parent) index }
    {
        let Some(row) = self.found(parent) else {
            return None;
        };
        row.items.as_slice().get(index as usize).copied()
    }
}

fn row_at(rows: &[Row], serial: Serial) -> Option<&Row>
    ensures { option_copied result ≡ find (is_at serial) rows.now }
{
    rows.iter().find(|row| row.serial.0 == serial.0)
}

fn view(row: &Row) -> RowView<'_>
    requires { length row.now.items < 256 }
    ensures { IsView row.now result }
{
    RowView {
        serial: row.serial,
        name: &row.name,
        kind: row.kind,
        settings: &row.settings,
        sound: row.sound,
        since: row.since,
        items: row.items.as_slice().len() as u32,
        next_item: row.next_item,
    }
}

/// An item so many pixels to the right.
#[tactic(auto, unfolding(mix_model::specs::Values::new_place))]
fn item(child: u64, enabled: bool, x: i32, blend: Blend) -> Item
    ensures { result ≡ shown child enabled x blend }
{
    Item {
        id: ItemId(1),
        child: Serial(child),
        enabled,
        locked: false,
        place: Place {
            x,
            y: 0,
            scale_x: 1,
            scale_y: 1,
            quarter: 0,
            align: 5,
            crop_left: 0,
            crop_top: 0,
            crop_right: 0,
            crop_bottom: 0,
        },
        blend,
    }
}

/// A source with these items.
#[tactic(auto, unfolding(mix_model::specs::Values::new_sound))]
fn source(
    serial: u64,
    name: &Name,
    kind: Kind,
    settings: Settings,
    since: u64,
    items: ItemList,
) -> Row
    ensures { result ≡ source serial name.now kind settings since items }
{
    Row {
        serial: Serial(serial),
        name: name.share(),
        kind,
        settings,
        sound: Sound {
            volume: 1000,
            muted: false,
            tracks: 63,
            offset: 0,
        },
        since,
        items,
        next_item: 2,
    }
}

/// A scene of five items, of which one is hidden.
fn top_items(alloc: Global) -> Result<ItemList, NoMemory>
    ensures { IfOk result (λ items. items ≡ top_items) }
{
    Ok(ListOf::from_vec(vec![in alloc;
        item(5, true, 0, Blend::Normal),
        item(6, false, 5, Blend::Normal),
        item(3, true, 10, Blend::Screen),
        item(2, true, 20, Blend::Additive),
        item(7, true, 30, Blend::Normal),
        item(4, true, 40, Blend::Normal),
    ]?))
}

/// A red source twice, once of them multiplied.
fn inner_items(alloc: Global) -> Result<ItemList, NoMemory>
    ensures { IfOk result (λ items. items ≡ inner_items) }
{
    Ok(ListOf::from_vec(vec![in alloc;
        item(5, true, 1, Blend::Multiply),
        item(5, true, 2, Blend::Normal),
    ]?))
}

/// A blue source.
fn group_items(alloc: Global) -> Result<ItemList, NoMemory>
    ensures { IfOk result (λ items. items ≡ group_items) }
{
    Ok(ListOf::from_vec(vec![in alloc; item(6, true, 3, Blend::Darken)]?))
}

/// The sources, each under this name.
#[tactic(auto, unfolding(crate::specs::Small::small_rows))]
fn rows(alloc: Global, name: &Name) -> Result<Vec<Row>, NoMemory>
    ensures { IfOk result (λ rows. rows.items ≡ small_rows name.now) }
{
    let red = Settings::Color {
        color: 255,
        width: 2,
        height: 1,
    };
    let blue = Settings::Color {
        color: 65535,
        width: 1,
        height: 1,
    };
    let tone = Settings::Tone {
        level: 100,
        half: 24,
    };
    let rows = vec![in alloc;
        source(1, name, Kind::Scene, Settings::None, 1, top_items(alloc)?),
        source(2, name, Kind::Scene, Settings::None, 2, inner_items(alloc)?),
        source(3, name, Kind::Group, Settings::None, 3, group_items(alloc)?),
        source(4, name, Kind::Scene, Settings::None, 4, no_items(alloc)),
        source(5, name, Kind::Color, red, 5, no_items(alloc)),
        source(6, name, Kind::Color, blue, 6, no_items(alloc)),
        source(7, name, Kind::Tone, tone, 7, no_items(alloc)),
    ]?;
    Ok(rows)
}

fn no_items(alloc: Global) -> ItemList
    ensures { result ≡ [] }
{
    ListOf::from_vec(Vec::new(alloc))
}

/// A scene (1) that shows a red source (5), hides a blue one (6), and shows a group of the blue one (3),
/// a scene with the red one twice (2), a tone (7), and a scene without items (4).
pub fn build(alloc: Global) -> Result<Small, Trouble> {
    let name = Name::read(b"any")?;
    let rows = rows(alloc, &name)?;
    Ok(Small { rows })
}
