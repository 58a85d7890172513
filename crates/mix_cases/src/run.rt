//! One run over sources and sinks in memory.
use crate::case::Case;
use mix_base::{Bytes, ListOf, NoMemory, Text};
use mix_outside::{MemSink, MemSource};
use mix_program::run_offline;
use std::alloc::{AllocError, Global};

/// How many bytes an output and a record may have.
const ROOM: usize = 16_777_216;

/// What a run is given: its words, and what it reads.
#[derive(Drop)]
struct Input {
    words: Vec<Text>,
    collection: MemSource,
    script: MemSource,
}

/// What a run leaves.
#[derive(Drop)]
pub struct Left {
    pub output: MemSink,
    pub record: MemSink,
    pub status: u8,
}

fn replay_words(alloc: Global) -> Result<Vec<Text>, AllocError> {
    let mut words = Vec::with_capacity(alloc, 4)?;
    for word in ["replay", "C", "S", "R"] {
        words.push(text(alloc, word)?)?;
    }
    Ok(words)
}

fn text(alloc: Global, word: &str) -> Result<Text, AllocError> {
    Text::from_str(alloc, word).map_err(|_| AllocError)
}

fn source(alloc: Global, bytes: &[u8]) -> Result<MemSource, AllocError> {
    let bytes: Bytes = ListOf::from_vec(Vec::from_slice(alloc, bytes)?);
    Ok(MemSource::new(bytes, ListOf::from_vec(Vec::new(alloc))))
}

fn sink(alloc: Global) -> Result<MemSink, AllocError> {
    MemSink::new(alloc, ROOM, ListOf::from_vec(Vec::new(alloc))).map_err(|_| AllocError)
}

/// What a case gives to its run.
fn input_of(alloc: Global, case: &Case) -> Result<Input, AllocError> {
    let words = replay_words(alloc)?;
    let Ok(collection) = source(alloc, case.collection.as_slice()) else {
        drop(words);
        return Err(AllocError);
    };
    let Ok(script) = source(alloc, case.script.as_slice()) else {
        drop(collection);
        drop(words);
        return Err(AllocError);
    };
    Ok(Input {
        words,
        collection,
        script,
    })
}

/// Before a run: nothing is written.
fn nothing_left(alloc: Global) -> Result<Left, AllocError> {
    let output = sink(alloc)?;
    let Ok(record) = sink(alloc) else {
        drop(output);
        return Err(AllocError);
    };
    Ok(Left {
        output,
        record,
        status: 0,
    })
}

fn replay(alloc: Global, input: &mut Input, left: &mut Left) {
    let status = run_offline(
        alloc,
        input.words.as_slice(),
        &mut input.collection,
        &mut input.script,
        &mut left.output,
        &mut left.record,
    );
    left.status = status.0;
}

/// Replays the script of a case on its collection.
pub fn run(alloc: Global, case: &Case) -> Result<Left, AllocError> {
    let mut input = input_of(alloc, case)?;
    let Ok(mut left) = nothing_left(alloc) else {
        drop(input);
        return Err(AllocError);
    };
    replay(alloc, &mut input, &mut left);
    drop(input);
    Ok(left)
}
