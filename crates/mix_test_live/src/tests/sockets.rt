//! What passes over a socket between a peer and a link, in one process.
use crate::tests::frames::{NO_VERSION, OTHERS, REQUEST, SPOKEN, put_frame};
use crate::tests::have::have;
use crate::tests::peers::{echo, first_link, talk};
use mix_sockets::{ListenDoor, listen};
use std::alloc::Global;
use std::net::{Net, TcpListener, TcpStream};
use std::process::Abort;
use std::random::RandomSource;
use std::thread::{Threads, join};
use std::time::Clock;

/// The head that answers a peer which is served.
const SERVED: &[u8] = b"HTTP/1.1 101 Switching Protocols\r\n";

/// The line that names the subprotocol.
const NAMED: &[u8] = b"sec-websocket-protocol: obswebsocket.json\r\n";

/// Serves the first link that comes, and says what was heard.
fn serve<R: Clock + RandomSource + Abort>(
    rt: &R,
    alloc: Global,
    mut door: ListenDoor<&R>,
) -> Vec<u8> {
    match first_link(rt, &mut door, 2000) {
        Some(mut link) => echo(rt, alloc, &mut link),
        None => Vec::new(alloc),
    }
}

/// Whether these bytes stand somewhere in others.
fn has(bytes: &[u8], part: &[u8]) -> bool {
    bytes
        .windows(part.len().max(1))
        .any(|window| window == part)
}

/// A peer with these frames is heard as these letters, and is told these bytes last.
fn expect<R>(rt: &R, alloc: Global, frames: &[u8], heard: &[u8], told: &[u8])
where
    R: Clock + RandomSource + Abort + Threads + Sync,
    R: Net<Listener = TcpListener, Stream = TcpStream>,
{
    let listener = have(rt, listen(rt, 0));
    let port = have(rt, listener.local_addr()).port();
    let door = ListenDoor::new(alloc, rt, listener);
    let (was_heard, came) = join(
        rt,
        move || serve(rt, alloc, door),
        || talk(rt, alloc, port, REQUEST, SPOKEN, frames),
    );
    let as_wanted = was_heard.as_slice() == heard;
    let answered = came.starts_with(SERVED) && has(came.as_slice(), NAMED);
    let ended = came.ends_with(told);
    drop(was_heard);
    drop(came);
    assert!(rt; answered);
    assert!(rt; as_wanted);
    assert!(rt; ended);
}

#[test]
fn a_peer_is_heard_and_answered(rt: HostRuntime) {
    let alloc = rt.alloc();
    let mut frames = Vec::new(alloc);
    put_frame(&rt, &mut frames, 0x81, b"one");
    put_frame(&rt, &mut frames, 0x01, b"t");
    put_frame(&rt, &mut frames, 0x89, b"p");
    put_frame(&rt, &mut frames, 0x80, b"wo");
    put_frame(&rt, &mut frames, 0x82, b"bytes");
    put_frame(&rt, &mut frames, 0x88, &[0x03, 0xE8]);
    expect(
        &rt,
        alloc,
        frames.as_slice(),
        b"ttbe",
        b"\x81\x03one\x8A\x01p\x81\x03two\x88\x02\x03\xE8",
    );
    drop(frames);
}

#[test]
fn a_text_that_is_not_utf_8_is_closed_with_1007(rt: HostRuntime) {
    let mut frames = Vec::new(rt.alloc());
    put_frame(&rt, &mut frames, 0x81, &[0xFF]);
    expect(
        &rt,
        rt.alloc(),
        frames.as_slice(),
        b"f",
        b"\x88\x02\x03\xEF",
    );
    drop(frames);
}

#[test]
fn a_long_control_frame_is_closed_with_1002(rt: HostRuntime) {
    let mut frames = Vec::new(rt.alloc());
    put_frame(&rt, &mut frames, 0x89, &[0; 126]);
    expect(
        &rt,
        rt.alloc(),
        frames.as_slice(),
        b"f",
        b"\x88\x02\x03\xEA",
    );
    drop(frames);
}

#[test]
fn a_text_of_a_mebibyte_and_one_byte_comes_whole(rt: HostRuntime) {
    let alloc = rt.alloc();
    let long = have(&rt, vec![in alloc; b'a'; 1_048_577]);
    let mut frames = Vec::new(alloc);
    put_frame(&rt, &mut frames, 0x81, long.as_slice());
    put_frame(&rt, &mut frames, 0x88, &[]);
    expect(&rt, alloc, frames.as_slice(), b"te", b"\x88\x00");
    drop(long);
    drop(frames);
}

/// A peer that asks so is refused.
fn expect_refusal<R>(rt: &R, alloc: Global, head: &[u8], line: &[u8])
where
    R: Clock + RandomSource + Abort + Threads + Sync,
    R: Net<Listener = TcpListener, Stream = TcpStream>,
{
    let listener = have(rt, listen(rt, 0));
    let port = have(rt, listener.local_addr()).port();
    let mut door = ListenDoor::new(alloc, rt, listener);
    let (was_heard, came) = join(
        rt,
        move || knock(rt, &mut door),
        || talk(rt, alloc, port, head, line, b""),
    );
    let refused = came.starts_with(b"HTTP/1.1 400 Bad Request\r\n");
    drop(came);
    assert!(rt; was_heard);
    assert!(rt; refused);
}

/// Nobody comes through the door for a while.
fn knock<R: Clock + RandomSource + Abort>(rt: &R, door: &mut ListenDoor<&R>) -> bool {
    first_link(rt, door, 400).is_none()
}

#[test]
fn a_peer_that_offers_other_subprotocols_alone_is_refused(rt: HostRuntime) {
    expect_refusal(&rt, rt.alloc(), REQUEST, OTHERS);
}

#[test]
fn a_peer_that_asks_for_no_version_is_refused(rt: HostRuntime) {
    expect_refusal(&rt, rt.alloc(), NO_VERSION, SPOKEN);
}
