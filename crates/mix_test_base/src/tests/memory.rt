//! Sources and sinks in memory, which fail at the calls that are named.
use crate::tests::have::have;
use mix_base::{Bytes, CallList};
use mix_outside::{MemSink, MemSource, Put, Sink, Source, Take};
use std::alloc::Global;
use std::process::Abort;

/// Bytes as a source owns them.
pub fn owned(rt: &impl Abort, alloc: Global, text: &[u8]) -> Bytes {
    Bytes::from_vec(have(rt, Vec::from_slice(alloc, text)))
}

/// The calls that are to fail.
pub fn calls(rt: &impl Abort, alloc: Global, failing: &[u64]) -> CallList {
    CallList::from_vec(have(rt, Vec::from_slice(alloc, failing)))
}

fn is_take(found: Take, wanted: Take) -> bool {
    match (found, wanted) {
        (Take::Bytes(count), Take::Bytes(other)) => count == other,
        (Take::End, Take::End) => true,
        (Take::Failed, Take::Failed) => true,
        _ => false,
    }
}

/// A read into four bytes answers this. What comes is put behind what came.
pub fn expect_take<S: Source>(rt: &impl Abort, source: &mut S, wanted: Take, came: &mut Vec<u8>) {
    let mut into = [0u8; 4];
    let take = source.read(&mut into);
    assert!(rt; is_take(take, wanted));
    if let Take::Bytes(count) = take {
        have(rt, came.extend_from_slice(&into[..count]));
    }
}

/// A write answers this.
pub fn expect_put<S: Sink>(rt: &impl Abort, sink: &mut S, bytes: &[u8], wanted: Put) {
    let put = sink.write(bytes);
    assert!(rt; put as u8 == wanted as u8);
}

static TAKES: [Take; 7] = [
    Take::Bytes(3),
    Take::Failed,
    Take::Bytes(3),
    Take::Bytes(1),
    Take::Failed,
    Take::End,
    Take::End,
];

#[test]
fn a_source_in_memory_fails_at_the_calls_that_are_named(rt: HostRuntime) {
    let alloc = rt.alloc();
    let failing = calls(&rt, alloc, &[1, 4, 9]);
    let mut source = MemSource::in_pieces(owned(&rt, alloc, b"seven b"), 3, failing);
    let mut came = Vec::new(alloc);
    for take in &TAKES {
        expect_take(&rt, &mut source, *take, &mut came);
    }
    assert!(rt; came.as_slice() == b"seven b".as_slice());
    drop(came);
    drop(source);
}

/// The writes, their answers, and what is held then.
static WRITES: [(&[u8], Put, &[u8]); 4] = [
    (b"abc", Put::Done, b"abc"),
    (b"x", Put::Failed, b"abc"),
    (b"defg", Put::Failed, b"abcde"),
    (b"", Put::Done, b"abcde"),
];

#[test]
fn a_sink_in_memory_keeps_what_fits(rt: HostRuntime) {
    let alloc = rt.alloc();
    let failing = calls(&rt, alloc, &[1]);
    let mut sink = have(&rt, MemSink::new(alloc, 5, failing));
    for (bytes, put, held) in &WRITES {
        expect_put(&rt, &mut sink, *bytes, *put);
        assert!(rt; sink.held() == *held);
    }
    drop(sink);
}
