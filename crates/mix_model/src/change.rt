//! What an action changed for a source.
use mix_base::Serial;

/// What an action changed for a source.
#[derive(Clone, Copy)]
pub enum Change {
    /// It became active, or it no longer is.
    Active { serial: Serial, now: bool },
    /// It began to show, or it no longer does.
    Showing { serial: Serial, now: bool },
}
