//! What an action is answered.
ghost use Rattle.std.specs.Prelude.{◌≡◌, IfOk};

use crate::SaidList;
use crate::said::copy_all_said;
use mix_base::{ConnId, NoMemory, Serial};
use mix_model::{Shot, VoiceList, copy_voices};
use std::alloc::Global;

/// What an action is answered.
#[derive(Drop)]
pub enum Reply {
    /// No more connections may be open.
    Full,
    /// The connection isn't open.
    Gone {
        conn: ConnId,
    },
    /// The connection went.
    Left {
        conn: ConnId,
    },
    /// All that waited for the connection, and then what the action says to it.
    Told {
        conn: ConnId,
        said: SaidList,
        /// The code with which the connection was closed (RFC 6455).
        close: Option<u16>,
        /// Whether the next request of its oldest batch is due.
        due: bool,
    },
    /// A frame, and the recording that it belongs to.
    Frame {
        number: u64,
        shot: Shot,
        recording: Option<u64>,
    },
    /// Too many frames are in flight.
    NoFrame,
    /// A block of sound, and the recording that it belongs to.
    Block {
        number: u64,
        voices: VoiceList,
        recording: Option<u64>,
    },
    /// The frame was given back.
    FrameGone {
        number: u64,
    },
    /// No frame of that number is in flight.
    NoSuchFrame,
    /// The row was destroyed.
    Destroyed(Serial),
    /// No row dies.
    Nothing,
}

/// The reply to an action, and what stands after it.
#[derive(Drop)]
pub struct Answer {
    pub reply: Reply,
    /// Somebody asked the mixer to stop.
    pub stopping: bool,
    /// How many rows die.
    pub dying: u32,
}

impl Reply {
    pub fn copy(&self, alloc: Global) -> Result<Reply, NoMemory>
        ensures value { IfOk result (λ copy. copy ≡ self.now) }
    {
        let copy = match self {
            Reply::Full => Reply::Full,
            Reply::Gone { conn } => Reply::Gone { conn: *conn },
            Reply::Left { conn } => Reply::Left { conn: *conn },
            Reply::Told {
                conn,
                said,
                close,
                due,
            } => Reply::Told {
                conn: *conn,
                said: copy_all_said(alloc, said)?,
                close: *close,
                due: *due,
            },
            Reply::Frame {
                number,
                shot,
                recording,
            } => Reply::Frame {
                number: *number,
                shot: shot.copy(alloc)?,
                recording: *recording,
            },
            Reply::NoFrame => Reply::NoFrame,
            Reply::Block {
                number,
                voices,
                recording,
            } => Reply::Block {
                number: *number,
                voices: copy_voices(alloc, voices)?,
                recording: *recording,
            },
            Reply::FrameGone { number } => Reply::FrameGone { number: *number },
            Reply::NoSuchFrame => Reply::NoSuchFrame,
            Reply::Destroyed(serial) => Reply::Destroyed(*serial),
            Reply::Nothing => Reply::Nothing,
        };
        Ok(copy)
    }
}

impl Answer {
    pub fn copy(&self, alloc: Global) -> Result<Answer, NoMemory>
        ensures value { IfOk result (λ copy. copy ≡ self.now) }
    {
        Ok(Answer {
            reply: self.reply.copy(alloc)?,
            stopping: self.stopping,
            dying: self.dying,
        })
    }
}
