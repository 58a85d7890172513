//! The session of an open connection.
use mix_base::ConnId;
use mix_events::Said;
use mix_session::{Heard, Session};

/// The session of an open connection, under its number.
#[derive(Drop)]
pub struct Member {
    pub conn: ConnId,
    pub session: Session,
}

impl Member {
    ghost use Rattle.std.specs.Prelude.{◌≡◌};
    ghost use Rattle.mix_audience.specs.Sides.{identified, is_member};

    /// Whether it is the connection's.
    pub fn is(&self, conn: ConnId) -> bool
        ensures value { result ≡ is_member conn self.now }
    {
        self.conn == conn
    }

    /// Enters the mask where it is the connection's.
    pub fn identify(&mut self, conn: ConnId, mask: u32)
        ensures state { self.new ≡ identified conn mask self.old }
    {
        if self.conn == conn {
            let heard = Heard::Say {
                said: Said::Identified,
                mask,
            };
            self.session.take(&heard);
            drop(heard);
        }
    }
}
