//! An item that would be new.
use mix_base::Serial;

/// An item that would be new. Its child is a row, or would be a new one as well: a group or an input.
#[derive(Clone, Copy)]
pub struct NewItem {
    pub parent: Serial,
    pub child: Serial,
    /// Whether the child would be a new group.
    pub group: bool,
}
