//! What the requests of all connections have noted.
ghost use Rattle.std.specs.Prelude.{◌≡◌, IfOk};

use crate::NoteList;
use crate::copies::copy_items;
use mix_base::{ConnId, NoMemory, Serial};
use std::alloc::Global;

/// A hold or a watch with the connection that made it.
#[derive(Clone, Copy)]
pub struct Note {
    pub id: u64,
    pub conn: ConnId,
    pub serial: Serial,
}

/// What the requests of all connections have noted.
#[derive(Drop)]
pub struct Notes {
    /// Somebody asked the mixer to stop.
    pub stop: bool,
    pub holds: NoteList,
    pub watches: NoteList,
    /// The frames that a Sleep asked for, or 0.
    pub sleep: u32,
}

impl Notes {
    pub fn copy(&self, alloc: Global) -> Result<Notes, NoMemory>
        ensures value { IfOk result (λ copy. copy ≡ self.now) }
    {
        Ok(Notes {
            stop: self.stop,
            holds: copy_items(alloc, &self.holds)?,
            watches: copy_items(alloc, &self.watches)?,
            sleep: self.sleep,
        })
    }
}
