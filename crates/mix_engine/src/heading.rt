//! What heads the reply of an action.
use mix_base::{ConnId, Serial};

/// What heads the reply of an action: all of it but the texts, the shot and the voices.
#[derive(Clone, Copy)]
pub enum Heading {
    /// Too many connections are open.
    Full,
    /// The connection isn't open.
    Gone { conn: ConnId },
    /// The connection went.
    Left { conn: ConnId },
    /// The connection is told something, and stays open.
    Told { conn: ConnId },
    /// The connection is told something, and closed with this code.
    Closed { conn: ConnId, code: u16 },
    /// A frame, and the recording that it belongs to.
    Frame { number: u64, recording: Option<u64> },
    /// Too many frames are in flight.
    NoFrame,
    /// A block of sound, and the recording that it belongs to.
    Block { number: u64, recording: Option<u64> },
    /// The frame was given back.
    FrameGone { number: u64 },
    /// No frame of that number is in flight.
    NoSuchFrame,
    /// The row was destroyed.
    Destroyed { serial: Serial },
    /// No row dies.
    Nothing,
    /// The action isn't built yet, and nothing is done.
    NotBuilt,
}

impl Heading {
    ghost use Rattle.std.specs.Prelude.{◌≡◌};
    ghost use Rattle.mix_engine.specs.Headings.{actor_of, is_unbuilt};

    /// The connection whose action it is.
    pub fn actor(self) -> Option<ConnId>
        ensures value { result ≡ actor_of self }
    {
        match self {
            Heading::Gone { conn } => Some(conn),
            Heading::Left { conn } => Some(conn),
            Heading::Told { conn } => Some(conn),
            Heading::Closed { conn, .. } => Some(conn),
            Heading::Full
            | Heading::Frame { .. }
            | Heading::NoFrame
            | Heading::Block { .. }
            | Heading::FrameGone { .. }
            | Heading::NoSuchFrame
            | Heading::Destroyed { .. }
            | Heading::Nothing
            | Heading::NotBuilt => None,
        }
    }

    /// Whether the action isn't built yet.
    pub fn is_unbuilt(self) -> bool
        ensures value { result ≡ is_unbuilt self }
    {
        matches!(self, Heading::NotBuilt)
    }
}
