//! The bytes that a client of a WebSocket sends (RFC 6455): each frame is masked with the key 0, so
//! that its payload stands in it as it is.
use crate::tests::have::have;
use std::process::Abort;

/// The head of a request for a WebSocket, with a line more.
pub const REQUEST: &[u8] =
    b"GET / HTTP/1.1\r\nHost: x\r\nConnection: Upgrade\r\nUpgrade: websocket\r\n\
Sec-WebSocket-Version: 13\r\nSec-WebSocket-Key: dGhlIHNhbXBsZSBub25jZQ==\r\n";

/// The head of a request that doesn't say which version of the protocol it asks for.
pub const NO_VERSION: &[u8] =
    b"GET / HTTP/1.1\r\nHost: x\r\nConnection: Upgrade\r\nUpgrade: websocket\r\n\
Sec-WebSocket-Key: dGhlIHNhbXBsZSBub25jZQ==\r\n";

/// The line that offers the subprotocol that is spoken, and the end of the head.
pub const SPOKEN: &[u8] = b"Sec-WebSocket-Protocol: x, obswebsocket.json\r\n\r\n";

/// The line that offers others alone.
pub const OTHERS: &[u8] = b"Sec-WebSocket-Protocol: obswebsocket.msgpack\r\n\r\n";

/// One frame: its first byte (the final bit and the opcode), and its payload.
pub fn put_frame(rt: &impl Abort, bytes: &mut Vec<u8>, first: u8, payload: &[u8]) {
    have(rt, bytes.push(first));
    let length = payload.len();
    if length < 126 {
        have(rt, bytes.push(0x80 | length as u8));
    } else {
        have(rt, bytes.push(0x80 | 127));
        have(rt, bytes.extend_from_slice(&(length as u64).to_be_bytes()));
    }
    have(rt, bytes.extend_from_slice(&[0; 4]));
    have(rt, bytes.extend_from_slice(payload));
}
