//! An input that is to be made.
ghost use Rattle.std.specs.Prelude.{◌≡◌, IsTrue};
ghost use Rattle.mix_model.specs.Values.{is_place};
ghost use Rattle.mix_req_inputs.specs.CreateInput.{new_spec};

use mix_base::{Name, Serial};
use mix_model::{Blend, ItemSpec, Kind, Settings};
use mix_requests::new_place;

/// An input that is to be made, with an item on top of its parent.
#[derive(Drop)]
pub struct NewInput {
    pub parent: Serial,
    pub name: Name,
    pub kind: Kind,
    pub settings: Settings,
    pub spec: ItemSpec,
}

/// A new item: unlocked, in its own size at the canvas's upper left corner, not turned or cropped.
pub fn new_spec(enabled: bool) -> ItemSpec
    ensures value { result ≡ new_spec enabled }
    ensures valid { IsTrue (is_place result.place) }
{
    ItemSpec {
        enabled,
        locked: false,
        place: new_place(),
        blend: Blend::Normal,
    }
}
