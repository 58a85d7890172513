//! Who asks, and in which turns.
use mix_base::ConnId;

/// In which turns requests are done, as obs-websocket 5 names it.
#[derive(Clone, Copy)]
pub enum Mode {
    /// Alone, in a message of its own.
    Single,
    /// In a batch, one after another by the clock (SerialRealtime).
    Realtime,
    /// In a batch, one after another by frames (SerialFrame).
    Frame,
}

/// Who asks, and in which turns.
#[derive(Clone, Copy)]
pub struct Caller {
    pub conn: ConnId,
    pub mode: Mode,
}
