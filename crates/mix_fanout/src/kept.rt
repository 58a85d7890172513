//! An event that waits, kept once for all connections that it waits for.
ghost use Rattle.std.specs.Prelude.{◌<◌};

use mix_events::ToldEvent;

/// An event that waits for somebody.
#[derive(Drop)]
pub struct Kept {
    pub event: ToldEvent,
    /// For how many connections it waits: for one at least, so the last one lets it go.
    pub holders: usize,
    ghost waits: { 0 < holders },
}
