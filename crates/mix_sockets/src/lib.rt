//! Links and doors over sockets of the system: WebSocket (RFC 6455) on a loopback listener.
#![tactic(auto)]

mod greeting;
mod hearing;
mod listen_door;
mod socket_link;

pub use listen_door::{ListenDoor, listen};
pub use socket_link::SocketLink;
