//! The kinds of messages that a client sends.
ghost use Rattle.std.specs.Prelude.{◌≡◌};
ghost use Rattle.mix_session.specs.Op.{in_turn, op_of};

use crate::close::{ALREADY_IDENTIFIED, NOT_IDENTIFIED};

/// The kinds of messages that a client sends.
#[derive(Clone, Copy)]
pub enum Op {
    /// Names the version and the events, and logs in.
    Identify,
    /// Names the events anew.
    Reidentify,
    Request,
    RequestBatch,
}

impl Op {
    /// The kind by its number.
    pub fn of_number(number: i64) -> Option<Op>
        ensures value { result ≡ op_of number }
    {
        match number {
            1 => Some(Op::Identify),
            3 => Some(Op::Reidentify),
            6 => Some(Op::Request),
            8 => Some(Op::RequestBatch),
            _ => None,
        }
    }

    /// Whether the message comes in its turn: the first identifies the connection, and no other.
    pub fn in_turn(self, mask: Option<u32>) -> Result<(), u16>
        ensures value { result ≡ in_turn self mask }
    {
        match (self, mask) {
            (Op::Identify, None) => Ok(()),
            (Op::Identify, Some(_)) => Err(ALREADY_IDENTIFIED),
            (_, None) => Err(NOT_IDENTIFIED),
            (_, Some(_)) => Ok(()),
        }
    }
}
