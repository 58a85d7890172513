//! One item is changed, in an action of its own.
ghost use Rattle.std.specs.Prelude.{◌≡◌, ◌↔◌, IsErr, IsTrue, OnErr, OnOk};
ghost use Rattle.mix_model.specs.Marks.{edited, marks_of};
ghost use Rattle.mix_model.specs.WholeShape.{StudioShape};
ghost use Rattle.mix_shape.specs.Refused.{lacks_item};
ghost use Rattle.mix_requests.specs.Sources.{edited_alone};
ghost use Rattle.mix_req_items.specs.Changes.{changed_by, may_be};
ghost use Rattle.mix_req_items.specs.Finding.{IsFound};

use crate::found::Found;
use mix_base::{ItemId, Serial};
use mix_graph::{Graph, Missing};
use mix_model::{Blend, Place};
use mix_studio::Studio;

/// What becomes of an item.
#[derive(Clone, Copy)]
pub enum Change {
    Enabled(bool),
    Locked(bool),
    /// It comes to lie at this index, counted from 0 at the bottom.
    Moved(u32),
    Placed(Place, Blend),
    Removed,
}

/// An item that was found is changed.
pub fn change_item(studio: &mut Studio, found: &Found, change: Change)
    requires begun { studio.old.begun ≡ marks_of studio.old.present.graph }
    requires shape { StudioShape studio.old.present }
    requires found { IsFound studio.old.present.graph found.now }
    requires may { IsTrue (may_be change) }
    ensures present { studio.new.present
        ≡ edited_alone (changed_by change found.now.holder found.now.item.id) studio.old.present }
    ensures begun { studio.new.begun ≡ studio.old.begun }
    ensures shape { StudioShape studio.new.present }
{
    let graph = studio.graph_mut();
    let _ = change_in(graph, found.holder, found.item.id, change);
    graph.has_shape();
}

/// The change, by the scene or group and the id of the item.
fn change_in(graph: &mut Graph, holder: Serial, id: ItemId, change: Change) -> Result<(), Missing>
    requires may { IsTrue (may_be change) }
    ensures ok { OnOk result (graph.new ≡ edited (changed_by change holder id) graph.old) }
    ensures err { OnErr result (graph.new ≡ graph.old) }
    ensures missing { IsErr result ↔ IsTrue (lacks_item graph.old.present holder id) }
{
    match change {
        Change::Enabled(enabled) => graph.set_enabled(holder, id, enabled),
        Change::Locked(locked) => graph.set_locked(holder, id, locked),
        Change::Moved(index) => graph.set_index(holder, id, index),
        Change::Placed(place, blend) => graph.set_place(holder, id, place, blend),
        Change::Removed => graph.remove_item(holder, id),
    }
}
