//! What a new item of a scene or group gets: its id, its index, and where it stands.
ghost use Rattle.std.specs.Prelude.{◌≡◌, IsTrue, length};
ghost use Rattle.mix_model.specs.Lookups.{items_of};
ghost use Rattle.mix_model.specs.Values.{is_place, new_place};
ghost use Rattle.mix_requests.specs.NewItems.{next_item};

use mix_base::{ItemId, Serial};
use mix_graph::Graph;
use mix_model::Place;

/// The id that the next item of a row gets.
pub fn next_item(graph: &Graph, serial: Serial) -> ItemId
    ensures value { result ≡ next_item graph.now.present serial }
{
    match graph.row(serial) {
        Some(row) => ItemId(row.next_item),
        None => ItemId(0),
    }
}

/// How many items a row has.
pub fn item_count(graph: &Graph, serial: Serial) -> u32
    ensures value { result ≡ length (items_of graph.now.present serial) }
{
    match graph.row(serial) {
        Some(row) => row.items,
        None => 0,
    }
}

/// At the canvas's upper left corner, in its own size, not turned and not cropped.
#[tactic(auto, unfolding(mix_model::specs::Values::is_place, mix_model::specs::Values::new_place))]
pub fn new_place() -> Place
    ensures value { result ≡ new_place }
    ensures valid { IsTrue (is_place result) }
{
    Place {
        x: 0,
        y: 0,
        scale_x: 1,
        scale_y: 1,
        quarter: 0,
        align: 5,
        crop_left: 0,
        crop_top: 0,
        crop_right: 0,
        crop_bottom: 0,
    }
}
