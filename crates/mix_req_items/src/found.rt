//! An item that was found.
use mix_base::Serial;
use mix_model::Item;

/// An item with the scene or group that it is of, and its place there.
#[derive(Clone, Copy)]
pub struct Found {
    pub holder: Serial,
    /// How many items lie below it.
    pub index: u32,
    pub item: Item,
}
