//! What a read of a socket comes to. Trusted edge: no contract says what a peer sends.
use mix_base::{Bytes, ListOf, NoMemory, Text};
use std::alloc::Global;
use std::io::{ErrorKind, Read, Write};
use tungstenite::{CloseCode, CloseFrame, Error, Message, NoMask, Utf8Bytes, WebSocket};

/// How often what a peer still sends is read, once it was sent a close.
const LAST_READS: u32 = 256;

/// What a read of a socket comes to.
#[derive(Drop)]
pub(crate) enum Heard {
    Text(Text),
    Binary(Bytes),
    /// The peer sends nothing now.
    Quiet,
    /// The connection was closed.
    Over,
    /// The stream failed, or the peer broke the protocol.
    Broken,
}

/// What comes next. A ping is answered on the way.
pub(crate) fn hear<S: Read + Write + Drop>(
    alloc: Global,
    socket: &mut WebSocket<S, NoMask>,
) -> Result<Heard, NoMemory> {
    match next_message(socket) {
        Ok(Message::Text(text)) => Ok(Heard::Text(Text::from_str(alloc, text.as_str())?)),
        Ok(Message::Binary(bytes)) => {
            let copy = Vec::from_slice(alloc, bytes.as_slice())?;
            Ok(Heard::Binary(ListOf::from_vec(copy)))
        }
        Ok(_) => Ok(Heard::Quiet),
        Err(error) => unheard(socket, error),
    }
}

/// The next message that is a text or bytes.
fn next_message<S: Read + Write + Drop>(
    socket: &mut WebSocket<S, NoMask>,
) -> Result<Message, Error> {
    for _ in 0..u64::MAX {
        let message = socket.read()?;
        if message.is_text() || message.is_binary() {
            return Ok(message);
        }
        drop(message);
    }
    Err(Error::AlreadyClosed)
}

/// What a read without a message comes to. A peer that broke the protocol is told so.
fn unheard<S: Read + Write + Drop>(
    socket: &mut WebSocket<S, NoMask>,
    error: Error,
) -> Result<Heard, NoMemory> {
    match error {
        Error::OutOfMemory => Err(NoMemory),
        Error::ConnectionClosed | Error::AlreadyClosed => Ok(Heard::Over),
        Error::Io(cause) => {
            if is_wait(cause.kind()) {
                return Ok(Heard::Quiet);
            }
            Ok(Heard::Broken)
        }
        Error::Utf8 => Ok(broken(socket, CloseCode::Invalid)),
        Error::Capacity(_) => Ok(broken(socket, CloseCode::Size)),
        Error::Protocol(_) => Ok(broken(socket, CloseCode::Protocol)),
        _ => Ok(Heard::Broken),
    }
}

/// Whether a stream that answers so may give something later.
pub(crate) fn is_wait(kind: ErrorKind) -> bool {
    matches!(
        kind,
        ErrorKind::WouldBlock | ErrorKind::TimedOut | ErrorKind::Interrupted
    )
}

/// Closes a connection whose peer broke the protocol.
fn broken<S: Read + Write + Drop>(socket: &mut WebSocket<S, NoMask>, code: CloseCode) -> Heard {
    let _ = close(socket, code);
    Heard::Broken
}

/// Sends a close, and reads for a while what the peer still sends, so that it hears the close before
/// the stream goes.
pub(crate) fn close<S: Read + Write + Drop>(
    socket: &mut WebSocket<S, NoMask>,
    code: CloseCode,
) -> Result<(), Error> {
    socket.close(Some(CloseFrame {
        code,
        reason: Utf8Bytes::new(),
    }))?;
    linger(socket.get_mut());
    Ok(())
}

/// Reads what comes, until nothing does.
pub(crate) fn linger<S: Read>(stream: &mut S) {
    let mut rest = [0; 4096];
    for _ in 0..LAST_READS {
        match stream.read(&mut rest) {
            Ok(0) | Err(_) => return,
            Ok(_) => {}
        }
    }
}
