//! A client of a WebSocket, and a server that answers it.
use crate::tests::have::have;
use mix_outside::{Came, Door, Got, Link};
use mix_sockets::{ListenDoor, SocketLink};
use std::alloc::Global;
use std::io::{Read, Write};
use std::net::{Net, TcpListener, TcpStream};
use std::process::Abort;
use std::random::RandomSource;
use std::time::{Clock, Duration};

/// How often something is waited for.
const PATIENCE: u32 = 2000;

/// Reads until the stream ends, or until these bytes have come.
fn read_until(rt: &impl Abort, stream: &mut TcpStream, came: &mut Vec<u8>, end: &[u8]) {
    let mut part = [0u8; 4096];
    for _ in 0..PATIENCE {
        if !end.is_empty() && came.ends_with(end) {
            return;
        }
        match stream.read(&mut part) {
            Ok(0) | Err(_) => return,
            Ok(count) => have(rt, came.extend_from_slice(&part[..count])),
        }
    }
}

/// Sends the head of a request, which ends with this line, and these frames once it is answered, and
/// gives all that comes back.
pub fn talk<R: Net<Listener = TcpListener, Stream = TcpStream> + Abort>(
    rt: &R,
    alloc: Global,
    port: u16,
    head: &[u8],
    line: &[u8],
    frames: &[u8],
) -> Vec<u8> {
    let mut stream = have(rt, TcpStream::connect(rt, ("127.0.0.1", port)));
    have(rt, stream.set_read_timeout(Some(Duration::from_secs(5))));
    have(rt, stream.write_all(head));
    have(rt, stream.write_all(line));
    let mut came = Vec::new(alloc);
    read_until(rt, &mut stream, &mut came, b"\r\n\r\n");
    let _ = stream.write_all(frames);
    read_until(rt, &mut stream, &mut came, b"");
    came
}

/// The first link that comes through a door, where it is asked so often.
pub fn first_link<R: Clock + RandomSource + Abort>(
    rt: &R,
    door: &mut ListenDoor<&R>,
    often: u32,
) -> Option<SocketLink<TcpStream>> {
    for _ in 0..often {
        match have(rt, door.next()) {
            Came::Link { link, .. } => return Some(link),
            Came::Idle => {}
            Came::End | Came::Failed => return None,
        }
    }
    None
}

/// Hears a link to its end, and sends each short text back. One letter for each thing that came.
pub fn echo(rt: &impl Abort, alloc: Global, link: &mut SocketLink<TcpStream>) -> Vec<u8> {
    let mut heard = Vec::new(alloc);
    for _ in 0..PATIENCE {
        match have(rt, link.recv()) {
            Got::Text(text) => {
                have(rt, heard.push(b't'));
                if text.as_str().len() < 100 {
                    let _ = have(rt, link.send(&text));
                }
                drop(text);
            }
            Got::Binary(bytes) => {
                drop(bytes);
                have(rt, heard.push(b'b'));
            }
            Got::Idle => {}
            Got::End => {
                have(rt, heard.push(b'e'));
                return heard;
            }
            Got::Failed => {
                have(rt, heard.push(b'f'));
                return heard;
            }
        }
    }
    heard
}
