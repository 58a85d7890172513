//! What no clause says: that calls go through where there is memory, and what passes over a socket.
mod frames;
mod have;
mod objects;
mod peers;
mod sockets;
