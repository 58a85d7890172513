//! Bytes that are read ahead of need, so that a byte or a line costs no call of its source.
ghost use Rattle.std.specs.Prelude.{◌≡◌, ◌≢◌, ◌<◌, ◌≤◌, ◌++◌, [], IfOk, drop, length};
ghost use Rattle.mix_outside.specs.Faults.{Rose};
ghost use Rattle.mix_outside.specs.Bytes.{IsWithin, Takes};

use crate::{Source, Take};
use mix_base::NoMemory;
use std::alloc::Global;
use std::marker::Model;

/// How many bytes are read ahead at once, at most.
const AHEAD: usize = 65_536;

/// What came of a read.
#[derive(Clone, Copy, PartialEq, Eq)]
pub(crate) enum Filled {
    /// Something stands ahead.
    More,
    /// Nothing stands ahead, and the source has ended.
    End,
    /// Nothing stands ahead, and the source failed.
    Failed,
}

/// Bytes that were read ahead from a source. Contracts see the list of those not yet given: what is
/// left is these, and then what the source has left.
#[derive(Drop)]
pub struct ReadAhead {
    bytes: Vec<u8>,
    start: usize,
    end: usize,
}

impl Model for ReadAhead {
    ghost use Rattle.std.specs.Prelude.{ℕ, ◌<◌, ◌≤◌, List, length, slice_range};

    ghost Value = { List ℕ };

    ghost view = { λ ahead. slice_range ahead.bytes.items ahead.start ahead.end };

    ghost invariant = { λ ahead. (ahead.start ≤ ahead.end)
        × (ahead.end ≤ length ahead.bytes.items) × (0 < length ahead.bytes.items) };
}

impl ReadAhead {
    ghost use Rattle.mix_outside.specs.Filling.{Fills, StandsAhead};

    /// Nothing is read ahead yet. Its memory is taken here.
    pub fn new(alloc: Global) -> Result<ReadAhead, NoMemory>
        ensures value { IfOk result (λ ahead. ahead ≡ []) }
    {
        let mut bytes = Vec::with_capacity(alloc, AHEAD)?;
        bytes.resize(AHEAD, 0)?;
        Ok(ReadAhead {
            bytes,
            start: 0,
            end: 0,
        })
    }

    /// Sees that something stands ahead, where the source has something left.
    pub(crate) fn fill<S: Source>(&mut self, source: &mut S) -> Filled
        ensures bytes { S.Tells → Fills result
            (self.old ++ S.left source.old) (self.new ++ S.left source.new) }
        ensures ahead { StandsAhead result self.new }
        ensures later { S.faults source.old ≤ S.faults source.new }
        ensures cause { result ≡ Filled.Failed → Rose (S.faults source.old) (S.faults source.new) }
        ensures steady { result ≢ Filled.Failed → S.faults source.new ≡ S.faults source.old }
    {
        if self.start < self.end {
            return Filled::More;
        }
        match source.read(&mut self.bytes) {
            Take::Bytes(count) => {
                self.start = 0;
                self.end = count;
                Filled::More
            }
            Take::End => Filled::End,
            Take::Failed => Filled::Failed,
        }
    }

    /// The bytes that stand ahead.
    pub(crate) fn bytes(&self) -> &[u8]
        ensures value { result.now ≡ self.now }
    {
        &self.bytes[self.start..self.end]
    }

    /// Gives up the first bytes.
    pub(crate) fn consume(&mut self, count: usize)
        requires count { count ≤ length self.old }
        ensures state { self.new ≡ drop count self.old }
    {
        self.start += count;
    }

    /// Reads some bytes into the front of a slice that isn't empty, as a source does.
    pub fn read<S: Source>(&mut self, source: &mut S, into: &mut [u8]) -> Take
        requires room { 0 < length into.old }
        ensures within { IsWithin result (length into.old) }
        ensures bytes { S.Tells → Takes result into.new
            (self.old ++ S.left source.old) (self.new ++ S.left source.new) }
        ensures later { S.faults source.old ≤ S.faults source.new }
        ensures cause { result ≡ Take.Failed → Rose (S.faults source.old) (S.faults source.new) }
        ensures steady { result ≢ Take.Failed → S.faults source.new ≡ S.faults source.old }
    {
        match self.fill(source) {
            Filled::More => {}
            Filled::End => return Take::End,
            Filled::Failed => return Take::Failed,
        }
        let ahead = self.bytes();
        let count = into.len().min(ahead.len());
        into[..count].copy_from_slice(&ahead[..count]);
        self.consume(count);
        Take::Bytes(count)
    }
}
