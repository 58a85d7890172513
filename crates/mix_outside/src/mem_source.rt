//! A source over bytes in memory, which fails exactly at the calls that it is told.
ghost use Rattle.std.specs.Prelude.{◌≡◌, ◌≢◌, ◌<◌, ◌≤◌, ◌↔◌, ◌^◌, ◌-◌, IsTrue, length};
ghost use Rattle.mix_outside.specs.Faults.{Rose};
ghost use Rattle.mix_outside.specs.Bytes.{IsWithin, Takes};

use crate::calls::CallCount;
use crate::{Source, Take};
use mix_base::{Bytes, CallList};
use std::marker::Model;

/// A source over bytes in memory. Contracts see what is left, how many bytes come at once at most,
/// the calls and the faults.
#[derive(Drop)]
pub struct MemSource {
    bytes: Bytes,
    given: usize,
    piece: usize,
    calls: CallCount,
    faults: u64,
}

impl Model for MemSource {
    ghost use Rattle.std.specs.Prelude.{◌<◌, ◌≤◌, drop, length};
    ghost use Rattle.mix_outside.specs.Memory.{SourceState};

    ghost Value = { SourceState };

    ghost view = { λ source. record {
      left = drop source.given source.bytes;
      piece = source.piece;
      calls = source.calls;
      faults = source.faults;
    } };

    ghost invariant = { λ source. (0 < source.piece) × (source.given ≤ length source.bytes) };
}

impl MemSource {
    ghost use Rattle.mix_outside.specs.Memory.{new_source};

    /// A source that gives as many bytes at once as there is room for. The calls that are to fail
    /// are counted from 0.
    pub fn new(bytes: Bytes, failing: CallList) -> MemSource
        ensures value { result ≡ new_source bytes (2 ^ 64 - 1) failing }
    {
        MemSource::in_pieces(bytes, usize::MAX, failing)
    }

    /// A source that gives at most `piece` bytes at once, as a slow line does.
    pub fn in_pieces(bytes: Bytes, piece: usize, failing: CallList) -> MemSource
        requires piece { 0 < piece }
        ensures value { result ≡ new_source bytes piece failing }
    {
        MemSource {
            bytes,
            given: 0,
            piece,
            calls: CallCount::new(failing),
            faults: 0,
        }
    }
}

impl Source for MemSource {
    ghost use Rattle.mix_outside.specs.Calls.{fails_next};
    ghost use Rattle.mix_outside.specs.Memory.{take_of, after_take};

    ghost Tells = { Unit {0} };

    ghost left = { λ source. source.left };

    ghost faults = { λ source. source.faults };

    fn read(&mut self, into: &mut [u8]) -> Take
        requires room { 0 < length into.old }
        ensures value { result ≡ take_of self.old (length into.old) }
        ensures failed { result ≡ Take.Failed ↔ IsTrue (fails_next self.old.calls) }
        ensures state { self.new ≡ after_take result self.old }
        ensures within { IsWithin result (length into.old) }
        ensures bytes { Takes result into.new self.old.left self.new.left }
        ensures later { self.old.faults ≤ self.new.faults }
        ensures cause { result ≡ Take.Failed → Rose self.old.faults self.new.faults }
        ensures steady { result ≢ Take.Failed → self.new.faults ≡ self.old.faults }
    {
        if self.calls.begin() {
            self.faults = self.faults.saturating_add(1);
            return Take::Failed;
        }
        let left = &self.bytes.as_slice()[self.given..];
        if left.is_empty() {
            return Take::End;
        }
        let count = into.len().min(self.piece).min(left.len());
        into[..count].copy_from_slice(&left[..count]);
        self.given += count;
        Take::Bytes(count)
    }
}
