//! The handshake of a WebSocket. Trusted edge: no contract says what a peer asks for.
use crate::hearing::linger;
use http::{HeaderName, HeaderValue, Request, Response, StatusCode};
use std::alloc::Global;
use std::io::{Read, Write};
use std::net::TcpStream;
use std::time::Duration;
use tungstenite::handshake::server::{Callback, ErrorResponse, ServerHandshake, start};
use tungstenite::{HandshakeError, MidHandshake, NoMask, WebSocket, WebSocketConfig};

/// The subprotocol that is spoken.
const SUBPROTOCOL: &str = "obswebsocket.json";

/// The header that offers and chooses subprotocols.
const PROTOCOLS: &str = "sec-websocket-protocol";

/// The most bytes of a message. A longer text than the protocol allows is still heard, and refused
/// by the session.
const MOST: usize = 1 << 21;

/// How many milliseconds a read waits.
const WAIT: u64 = 50;

/// How many milliseconds a write waits.
const PATIENCE: u64 = 10_000;

/// How often a handshake may wait for its peer.
const ROUNDS: u32 = 40;

/// What is answered to a request that asks for no WebSocket.
const BAD_REQUEST: &[u8] =
    b"HTTP/1.1 400 Bad Request\r\nSec-WebSocket-Version: 13\r\nContent-Length: 0\r\n\r\n";

/// Chooses the subprotocol.
#[derive(Drop)]
pub(crate) struct Chooses {
    alloc: Global,
}

/// Whether a list of subprotocols, with commas between, has the one that is spoken.
fn offers(list: &[u8]) -> bool {
    let Ok(list) = str::from_utf8(list) else {
        return false;
    };
    for name in list.split(',') {
        if name.trim() == SUBPROTOCOL {
            return true;
        }
    }
    false
}

/// The refusal of a request that offers other subprotocols alone.
fn refusal(alloc: Global) -> ErrorResponse {
    let mut refused = Response::new(alloc, None);
    *refused.status_mut() = StatusCode::BAD_REQUEST;
    refused
}

impl Callback for Chooses {
    fn on_request(
        self,
        request: &Request<()>,
        response: Response<()>,
    ) -> Result<Response<()>, ErrorResponse> {
        let name = HeaderName::from_static(PROTOCOLS);
        let Some(asked) = request.headers().get(&name) else {
            return Ok(response);
        };
        if !offers(asked.as_bytes()) {
            return Err(refusal(self.alloc));
        }
        let mut response = response;
        let chosen = HeaderValue::from_static(SUBPROTOCOL);
        if response.headers_mut().insert(name, chosen).is_err() {
            return Err(refusal(self.alloc));
        }
        Ok(response)
    }
}

/// A handshake that waits for its peer.
type Waiting = MidHandshake<ServerHandshake<TcpStream, Chooses>>;

/// Does the handshake with a peer. None where it isn't done: the peer is answered, where it asked for
/// something, and goes.
pub(crate) fn greet(alloc: Global, stream: TcpStream) -> Option<WebSocket<TcpStream, NoMask>> {
    let ready = stream
        .set_read_timeout(Some(Duration::from_millis(WAIT)))
        .is_ok()
        && stream
            .set_write_timeout(Some(Duration::from_millis(PATIENCE)))
            .is_ok()
        && stream.set_nodelay(true).is_ok();
    if !ready {
        return None;
    }
    let Ok(mut answering) = stream.try_clone() else {
        return None;
    };
    let config = WebSocketConfig::default()
        .max_message_size(Some(MOST))
        .max_frame_size(Some(MOST));
    let callback = Chooses { alloc };
    let socket = shake_hands(start(alloc, stream, callback, Some(config)));
    if socket.is_none() {
        refuse(&mut answering);
    }
    socket
}

/// Goes on with a handshake for so many rounds.
fn shake_hands(begun: Waiting) -> Option<WebSocket<TcpStream, NoMask>> {
    let mut waiting = begun;
    for _ in 0..ROUNDS {
        match waiting.handshake() {
            Ok(socket) => return Some(socket),
            Err(HandshakeError::Interrupted(next)) => waiting = next,
            Err(HandshakeError::Failure(_)) => return None,
        }
    }
    None
}

/// Tells a peer that its request was no good.
fn refuse<S: Read + Write>(stream: &mut S) {
    if stream.write_all(BAD_REQUEST).is_ok() {
        linger(stream);
    }
}
