//! What a link gives, and what it is sent.
use mix_base::{Bytes, Text};

/// What a link gives.
#[derive(Drop)]
pub enum Got {
    /// A message of text.
    Text(Text),
    /// A message of bytes.
    Binary(Bytes),
    /// Nothing came yet.
    Idle,
    /// Nothing comes any more.
    End,
    /// The outside failed, and the count of faults tells so.
    Failed,
}

/// What a link is sent.
#[derive(Drop)]
pub enum Sent {
    Text(Text),
    /// A close with this code (RFC 6455).
    Close(u16),
}
