//! Lines, whatever the pieces in which their bytes come.
ghost use Rattle.std.specs.Prelude.{◌<◌};

use crate::tests::have::have;
use crate::tests::memory::{calls, owned};
use mix_outside::{MemSource, Met, ReadAhead};
use std::alloc::Global;
use std::process::Abort;

/// A reader of lines from memory.
#[derive(Drop)]
struct Reader {
    source: MemSource,
    ahead: ReadAhead,
    line: Vec<u8>,
}

impl Reader {
    /// Over this text, which comes by so many bytes at most.
    fn new(rt: &impl Abort, alloc: Global, text: &[u8], piece: usize) -> Reader
        requires { 0 < piece }
    {
        let failing = calls(rt, alloc, &[]);
        Reader {
            source: MemSource::in_pieces(owned(rt, alloc, text), piece, failing),
            ahead: have(rt, ReadAhead::new(alloc)),
            line: Vec::new(alloc),
        }
    }

    /// The next line, which may take so many bytes, is met so.
    fn expect(&mut self, rt: &impl Abort, room: u64, wanted: Met) {
        let met = self.ahead.next_line(&mut self.source, room, &mut self.line);
        assert!(rt; met as u8 == wanted as u8, "in {room}");
    }
}

static LINES: [(Met, &[u8]); 4] = [
    (Met::Whole, b"one"),
    (Met::Whole, b""),
    (Met::Whole, b"three"),
    (Met::Last, b"four"),
];

fn expect_lines(rt: &impl Abort, alloc: Global, piece: usize)
    requires { 0 < piece }
{
    let mut reader = Reader::new(rt, alloc, b"one\n\nthree\nfour", piece);
    for (met, bytes) in &LINES {
        reader.expect(rt, 6, *met);
        assert!(rt; reader.line.as_slice() == *bytes, "by {piece}");
    }
    drop(reader);
}

#[test]
fn lines_are_the_same_whatever_the_pieces(rt: HostRuntime) {
    for less in [0usize, 1, 2, 6, 99] {
        expect_lines(&rt, rt.alloc(), less + 1);
    }
}

static ROOMS: [(&[u8], u64, Met); 6] = [
    (b"abc\n", 4, Met::Whole),
    (b"abc\n", 3, Met::Past),
    (b"abc", 3, Met::Last),
    (b"abcd", 3, Met::Past),
    (b"", 0, Met::Last),
    (b"\n", 0, Met::Past),
];

#[test]
fn a_line_is_past_where_its_feed_finds_no_room(rt: HostRuntime) {
    for (text, room, met) in &ROOMS {
        let mut reader = Reader::new(&rt, rt.alloc(), *text, 2);
        reader.expect(&rt, *room, *met);
        drop(reader);
    }
}
