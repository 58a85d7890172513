//! An item of a scene or group, which shows a source.
use crate::{Blend, Place};
use mix_base::{ItemId, Serial};

/// An item of a scene or group. It shows its child.
#[derive(Clone, Copy)]
pub struct Item {
    pub id: ItemId,
    pub child: Serial,
    pub enabled: bool,
    pub locked: bool,
    pub place: Place,
    pub blend: Blend,
}

/// What a new item is asked to be.
#[derive(Clone, Copy)]
pub struct ItemSpec {
    pub enabled: bool,
    pub locked: bool,
    pub place: Place,
    pub blend: Blend,
}
