//! Scenes, groups and items that requests name, and the statuses of those that aren't found.
ghost use Rattle.std.specs.Prelude.{◌≡◌, IfOk, false, slice_get, true};
ghost use Rattle.std.specs.Option.{option_map_or};
ghost use Rattle.mix_model.specs.Holders.{is_named};
ghost use Rattle.mix_model.specs.Lookups.{items_of};
ghost use Rattle.mix_model.specs.Rows.{has_id, has_items};
ghost use Rattle.mix_req_items.specs.Finding.{IsFound, found_item, holder_sought, item_named};
ghost use Rattle.mix_req_items.specs.Finding.{item_sought, place_of, source_sought};

use crate::found::Found;
use crate::numbers::item_id;
use mix_base::{ItemId, Serial, Text};
use mix_graph::Graph;
use mix_model::{Body, Kind};
use mix_requests::{needed_fields, sought_name};
use mix_studio::Studio;

/// The item that a request names, which needs nothing else.
#[tactic(auto, unfolding(crate::specs::Finding::found_item))]
pub fn found_item(studio: &Studio, body: &Body) -> Result<Found, u16>
    ensures value { result ≡ found_item studio.now.present.graph body.now }
    ensures found { IfOk result (IsFound studio.now.present.graph) }
{
    let fields = needed_fields(body)?;
    let name = sought_name(fields, "sceneName")?;
    let id = item_id(fields)?;
    item_named(studio, name, id)
}

/// An item by the name of its scene or group and its id: 600 and 602.
#[tactic(auto, unfolding(crate::specs::Finding::item_named))]
pub fn item_named(studio: &Studio, name: &Text, id: ItemId) -> Result<Found, u16>
    ensures value { result ≡ item_named studio.now.present.graph name.now id }
    ensures found { IfOk result (IsFound studio.now.present.graph) }
{
    let graph = studio.graph();
    let holder = holder_sought(graph, name)?;
    item_sought(graph, holder, id)
}

/// The scene or group of a name: 600 where no source has it, 602 where it is an input.
#[tactic(auto, unfolding(crate::specs::Finding::holder_sought))]
pub fn holder_sought(graph: &Graph, name: &Text) -> Result<Serial, u16>
    ensures value { result ≡ holder_sought graph.now.present name.now }
    ensures named { IfOk result (λ x. is_named graph.now.present x ≡ true) }
{
    graph.has_shape();
    let Some(serial) = graph.find(name) else {
        return Err(600);
    };
    let Some(row) = graph.row(serial) else {
        unreachable!();
    };
    if has_items(row.kind) {
        Ok(serial)
    } else {
        Err(602)
    }
}

/// The source of a name, of whatever sort: 600 where there is none.
#[tactic(auto, unfolding(crate::specs::Finding::source_sought))]
pub fn source_sought(graph: &Graph, name: &Text) -> Result<Serial, u16>
    ensures value { result ≡ source_sought graph.now.present name.now }
    ensures named { IfOk result (λ x. is_named graph.now.present x ≡ true) }
{
    graph.has_shape();
    match graph.find(name) {
        Some(serial) => Ok(serial),
        None => Err(600),
    }
}

/// The item of an id: 600 where the scene or group has none.
pub fn item_sought(graph: &Graph, holder: Serial, id: ItemId) -> Result<Found, u16>
    requires named { is_named graph.now.present holder ≡ true }
    ensures value { result ≡ item_sought graph.now.present holder id }
    ensures found { IfOk result (IsFound graph.now.present) }
{
    let Some(index) = index_of(graph, holder, id) else {
        return Err(600);
    };
    let Some(item) = graph.item_at(holder, index) else {
        return Err(600);
    };
    Ok(Found {
        holder,
        index,
        item,
    })
}

/// How many items lie below the one of an id.
fn index_of(graph: &Graph, holder: Serial, id: ItemId) -> Option<u32>
    ensures value { result ≡ place_of graph.now.present holder id }
{
    let Some(row) = graph.row(holder) else {
        return None;
    };
    for index in 0..row.items {
        if has_id_at(graph, holder, index, id) {
            return Some(index);
        }
    }
    None
}

/// Whether an item stands at this place and has this id.
fn has_id_at(graph: &Graph, holder: Serial, index: u32, id: ItemId) -> bool
    ensures value { result ≡ option_map_or (has_id id)
        (slice_get (items_of graph.now.present holder) index) false }
{
    match graph.item_at(holder, index) {
        Some(item) => item.id.0 == id.0,
        None => false,
    }
}

/// Whether a source of this kind has items.
fn has_items(kind: Kind) -> bool
    ensures value { result ≡ has_items kind }
{
    match kind {
        Kind::Scene | Kind::Group => true,
        Kind::Color | Kind::Checker | Kind::Scroll | Kind::Raster | Kind::Tone => false,
    }
}
