//! Why a call that creates or adds is refused.

/// Why a call that creates or adds is refused; the causes are looked for in this order.
#[derive(Clone, Copy)]
pub enum GraphFault {
    /// A source or an item that was given isn't there.
    NotFound,
    /// What is to show the item is no scene or group.
    WrongKind,
    /// The name belongs to a source.
    Exists,
    /// The child would show its own parent.
    Cycle,
    /// Scenes would lie too deep in one another.
    Depth,
    /// There would be more than this limit allows.
    TooMany { limit: u32 },
    /// There was no memory for it.
    NoMemory,
}
