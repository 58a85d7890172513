//! A message of a connection.
ghost use Rattle.std.specs.Prelude.{◌≡◌, IfOk};

use crate::copies::copy_items;
use mix_base::{Bytes, NoMemory, Text};
use std::alloc::Global;

/// A message of a connection (RFC 6455): a text frame or a binary one.
#[derive(Drop)]
pub enum Message {
    Text(Text),
    Binary(Bytes),
}

impl Message {
    pub fn copy(&self, alloc: Global) -> Result<Message, NoMemory>
        ensures value { IfOk result (λ copy. copy ≡ self.now) }
    {
        match self {
            Message::Text(text) => Ok(Message::Text(text.share()?)),
            Message::Binary(bytes) => Ok(Message::Binary(copy_items(alloc, bytes)?)),
        }
    }
}
