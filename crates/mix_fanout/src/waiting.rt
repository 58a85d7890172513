//! What waits for a connection.
use mix_events::Said;

/// What waits for a connection. The texts are a `Vec` and no `SaidList`, since a `Vec` keeps the room
/// for further texts: so many as were asked for go in by `push_reserved`, which takes no memory.
#[derive(Drop)]
pub struct Waiting {
    /// The events in their order, each as it is said.
    pub said: Vec<Said>,
    /// Whether the connection is cut.
    pub cut: bool,
}
