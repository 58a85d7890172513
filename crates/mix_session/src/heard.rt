//! What a message comes to.
use mix_events::Said;
use mix_model::{Ask, BatchAsk};

/// What a message comes to.
#[derive(Drop)]
pub enum Heard {
    /// It is answered at once, and from now on the connection is told the events of the mask.
    Say { said: Said, mask: u32 },
    /// It asks for one request.
    Ask(Ask),
    /// It asks for a batch of requests.
    Batch(BatchAsk),
    /// It closes the connection with this code (obs-websocket 5, 4002 to 4012).
    Close(u16),
}
