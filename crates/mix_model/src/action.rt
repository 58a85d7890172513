//! What can happen to a mixer.
ghost use Rattle.std.specs.Prelude.{◌≡◌, IfOk};

use crate::Message;
use mix_base::{Bytes32, ConnId, NoMemory, PassNo};
use std::alloc::Global;

/// What can happen to a mixer. One action is one step.
#[derive(Drop)]
pub enum Action {
    /// A connection comes.
    Arrive { challenge: Bytes32 },
    /// A connection says something.
    Hear { conn: ConnId, message: Message },
    /// A connection asks for what waits.
    Poll { conn: ConnId },
    /// The next request of the connection's oldest pending batch, where it is due.
    BatchNext { conn: ConnId },
    /// A connection goes.
    Leave { conn: ConnId },
    /// A frame is taken.
    VideoTick,
    /// A block of sound is taken.
    AudioTick,
    /// A frame is given back.
    FrameDone { number: u64 },
    /// The first row that dies is destroyed.
    Destroy,
}

/// An action of a history, with who made it.
#[derive(Drop)]
pub struct Entry {
    pub from: PassNo,
    pub action: Action,
}

impl Action {
    pub fn copy(&self, alloc: Global) -> Result<Action, NoMemory>
        ensures value { IfOk result (λ copy. copy ≡ self.now) }
    {
        let copy = match self {
            Action::Arrive { challenge } => Action::Arrive {
                challenge: *challenge,
            },
            Action::Hear { conn, message } => Action::Hear {
                conn: *conn,
                message: message.copy(alloc)?,
            },
            Action::Poll { conn } => Action::Poll { conn: *conn },
            Action::BatchNext { conn } => Action::BatchNext { conn: *conn },
            Action::Leave { conn } => Action::Leave { conn: *conn },
            Action::VideoTick => Action::VideoTick,
            Action::AudioTick => Action::AudioTick,
            Action::FrameDone { number } => Action::FrameDone { number: *number },
            Action::Destroy => Action::Destroy,
        };
        Ok(copy)
    }
}

impl Entry {
    pub fn copy(&self, alloc: Global) -> Result<Entry, NoMemory>
        ensures value { IfOk result (λ copy. copy ≡ self.now) }
    {
        Ok(Entry {
            from: self.from,
            action: self.action.copy(alloc)?,
        })
    }
}
