//! One run over sources and sinks in memory.
use mix_base::{Bytes, CallList, ListOf, Text};
use mix_outside::{MemSink, MemSource};
use mix_program::run_offline;
use std::alloc::{AllocError, Global};
use std::test::Fail;

/// The words of a replay.
pub static REPLAY: [&str; 4] = ["replay", "C", "S", "R"];

/// What a run is made from. The calls that are to fail are counted from 0.
#[derive(Clone, Copy)]
pub struct Given<'a> {
    pub words: &'a [&'a str],
    pub collection: &'a [u8],
    pub script: &'a [u8],
    /// How many bytes a source gives at once at most.
    pub piece: usize,
    /// The reads of the collection that fail.
    pub unread: &'a [u64],
    /// The reads of the script that fail.
    pub unheard: &'a [u64],
    /// The writes of the output that fail.
    pub unwritten: &'a [u64],
    /// How many bytes the output has room for.
    pub room: usize,
}

/// What a run reads.
#[derive(Drop)]
struct Input {
    words: Vec<Text>,
    collection: MemSource,
    script: MemSource,
}

/// What a run leaves: its output, its record, and its status.
#[derive(Drop)]
pub struct Left {
    pub output: MemSink,
    pub record: MemSink,
    pub status: u8,
}

/// A run in which nothing fails.
pub fn replay_of<'a>(collection: &'a [u8], script: &'a [u8]) -> Given<'a> {
    Given {
        words: &REPLAY,
        collection,
        script,
        piece: 7,
        unread: &[],
        unheard: &[],
        unwritten: &[],
        room: 100_000,
    }
}

fn calls(alloc: Global, failing: &[u64]) -> Result<CallList, AllocError> {
    Ok(ListOf::from_vec(Vec::from_slice(alloc, failing)?))
}

fn source(
    alloc: Global,
    text: &[u8],
    piece: usize,
    failing: &[u64],
) -> Result<MemSource, AllocError> {
    let failing = calls(alloc, failing)?;
    let bytes: Bytes = ListOf::from_vec(Vec::from_slice(alloc, text)?);
    Ok(MemSource::in_pieces(bytes, piece.max(1), failing))
}

fn sink(alloc: Global, room: usize, failing: &[u64]) -> Result<MemSink, AllocError> {
    let failing = calls(alloc, failing)?;
    MemSink::new(alloc, room, failing).map_err(|_| AllocError)
}

fn text(alloc: Global, word: &str) -> Result<Text, AllocError> {
    Text::from_str(alloc, word).map_err(|_| AllocError)
}

fn texts(alloc: Global, words: &[&str]) -> Result<Vec<Text>, AllocError> {
    let mut texts = Vec::new(alloc);
    for word in words {
        texts.push(text(alloc, word)?)?;
    }
    Ok(texts)
}

/// A piece so many times between two texts.
pub fn repeated(
    alloc: Global,
    before: &[u8],
    piece: &[u8],
    times: usize,
    after: &[u8],
) -> Result<Vec<u8>, AllocError> {
    let mut all = Vec::from_slice(alloc, before)?;
    for _ in 0..times {
        all.extend_from_slice(piece)?;
    }
    all.extend_from_slice(after)?;
    Ok(all)
}

/// What a run reads, from what it is made from.
fn input_of(alloc: Global, given: Given) -> Result<Input, AllocError> {
    let words = texts(alloc, given.words)?;
    let Ok(collection) = source(alloc, given.collection, given.piece, given.unread) else {
        drop(words);
        return Err(AllocError);
    };
    let Ok(script) = source(alloc, given.script, given.piece, given.unheard) else {
        drop(collection);
        drop(words);
        return Err(AllocError);
    };
    Ok(Input {
        words,
        collection,
        script,
    })
}

/// Before a run: nothing is written. The record has no room, so that one that writes to it shows.
fn nothing_left(alloc: Global, given: Given) -> Result<Left, AllocError> {
    let output = sink(alloc, given.room, given.unwritten)?;
    let Ok(record) = sink(alloc, 0, &[]) else {
        drop(output);
        return Err(AllocError);
    };
    Ok(Left {
        output,
        record,
        status: 0,
    })
}

fn replay(alloc: Global, input: &mut Input, left: &mut Left) {
    let status = run_offline(
        alloc,
        input.words.as_slice(),
        &mut input.collection,
        &mut input.script,
        &mut left.output,
        &mut left.record,
    );
    left.status = status.0;
}

/// Does a run.
pub fn run(alloc: Global, given: Given) -> Result<Left, AllocError> {
    let mut input = input_of(alloc, given)?;
    let Ok(mut left) = nothing_left(alloc, given) else {
        drop(input);
        return Err(AllocError);
    };
    replay(alloc, &mut input, &mut left);
    drop(input);
    Ok(left)
}

/// A test fails with the name of its case and the status of its run where this didn't leave what it
/// should.
fn settle(is_right: bool, status: u8, case: &str) -> Result<(), Fail> {
    if is_right {
        Ok(())
    } else {
        Err(Fail::new(format_args!("{case}: it ended with {status}")))
    }
}

/// A run leaves this output and nothing else, and ends with this status.
pub fn expect(
    alloc: Global,
    given: Given,
    output: &[u8],
    status: u8,
    case: &str,
) -> Result<(), Fail> {
    let left = run(alloc, given)?;
    let ended = left.status;
    let is_right = ended == status && left.output.held() == output && left.record.held().is_empty();
    drop(left);
    settle(is_right, ended, case)
}

/// A run leaves a front of this output and nothing else, and ends with this status. How many bytes
/// it leaves is answered.
pub fn expect_front(
    alloc: Global,
    given: Given,
    output: &[u8],
    status: u8,
    case: &str,
) -> Result<usize, Fail> {
    let left = run(alloc, given)?;
    let ended = left.status;
    let count = left.output.held().len();
    let is_right = ended == status
        && output.starts_with(left.output.held())
        && left.record.held().is_empty();
    drop(left);
    settle(is_right, ended, case)?;
    Ok(count)
}
