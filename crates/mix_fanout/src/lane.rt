//! A joined connection, with the keys of the events that wait for it.
ghost use Rattle.std.specs.Prelude.{◌≡◌, ◌≤◌, IfOk, OnOk, OnErr};
ghost use Rattle.mix_fanout.specs.Lanes.{is_but};
ghost use Rattle.mix_fanout.specs.Keys.{cleared_line, cut_line, is_line, masked_line, new_line};
ghost use Rattle.mix_fanout.specs.Keys.{posted_line, takes, with_room};

use mix_base::{ConnId, NoMemory};
use std::alloc::Global;
use std::marker::Model;

/// A joined connection, with the keys of the events that wait for it. There is room for `room` more.
#[derive(Drop)]
pub struct Lane {
    conn: ConnId,
    mask: u32,
    keys: Vec<usize>,
    cut: bool,
    room: u32,
}

impl Model for Lane {
    ghost use Rattle.std.specs.Prelude.{◌≤◌, ◌+◌, vec_len, vec_capacity};
    ghost use Rattle.mix_fanout.specs.Keys.{Lined};

    ghost Value = { Lined };

    ghost view = { λ l. record {
      conn = l.conn;
      mask = l.mask;
      keys = l.keys.items;
      cut = l.cut;
      room = l.room;
    } };

    ghost invariant = { λ l. vec_len l.keys + l.room ≤ vec_capacity l.keys };
}

/// Whether the connection is the one that is left out.
fn is_but(but: Option<u32>, conn: ConnId) -> bool
    ensures value { result ≡ is_but but conn }
{
    match but {
        None => false,
        Some(but) => but == conn.0,
    }
}

impl Lane {
    /// A connection that wants nothing yet.
    pub fn new(alloc: Global, conn: ConnId, room: u32) -> Result<Lane, NoMemory>
        ensures value { IfOk result (λ lane. lane ≡ new_line conn room) }
    {
        Ok(Lane {
            conn,
            mask: 0,
            keys: Vec::with_capacity(alloc, room as usize)?,
            cut: false,
            room,
        })
    }

    /// Whether this is the connection.
    pub fn is(&self, conn: ConnId) -> bool
        ensures value { result ≡ is_line conn self.now }
    {
        self.conn == conn
    }

    /// Whether the connection is cut.
    pub fn is_cut(&self) -> bool
        ensures value { result ≡ self.now.cut }
    {
        self.cut
    }

    /// The keys of the events that wait, in their order.
    pub fn keys(&self) -> &[usize]
        ensures value { result.now ≡ self.now.keys }
    {
        self.keys.as_slice()
    }

    /// Makes room for so many more.
    pub fn reserve(&mut self, room: u32) -> Result<(), NoMemory>
        ensures ok { OnOk result (self.new ≡ with_room room self.old) }
        ensures err { OnErr result (self.new ≡ self.old) }
    {
        self.keys.reserve(room as usize)?;
        self.room = room;
        Ok(())
    }

    /// Puts the key of an event of this bit at the end where the connection is told of it, and
    /// answers whether it is.
    pub fn post(&mut self, key: usize, bit: u32, but: Option<u32>) -> bool
        requires { 1 ≤ self.old.room }
        ensures value { result ≡ takes bit but self.old }
        ensures state { self.new ≡ posted_line key bit but self.old }
    {
        self.room -= 1;
        let takes = !is_but(but, self.conn) && !self.cut && self.mask & bit != 0;
        if takes {
            self.keys.push_reserved(key);
        }
        takes
    }

    /// Forgets what waits where this is the connection.
    pub fn clear(&mut self, conn: ConnId)
        ensures state { self.new ≡ cleared_line conn self.old }
    {
        if self.conn == conn {
            self.keys.clear();
        }
    }

    /// Sets the mask where this is the connection.
    pub fn set_mask(&mut self, conn: ConnId, mask: u32)
        ensures state { self.new ≡ masked_line conn mask self.old }
    {
        if self.conn == conn {
            self.mask = mask;
        }
    }

    /// Cuts the connection where so many texts wait, or more, unless it is left out.
    pub fn cut_full(&mut self, limit: u32, but: Option<u32>)
        ensures state { self.new ≡ cut_line limit but self.old }
    {
        if !is_but(but, self.conn) && self.keys.len() >= limit as usize {
            self.cut = true;
        }
    }
}
