//! A sink that keeps its bytes in memory, and fails exactly at the calls that it is told and past
//! its room.
ghost use Rattle.std.specs.Prelude.{◌≡◌, ◌≢◌, ◌≤◌, ◌↔◌, IfOk, IsTrue};
ghost use Rattle.mix_outside.specs.Faults.{Rose};
ghost use Rattle.mix_outside.specs.Bytes.{Puts};

use crate::calls::CallCount;
use crate::{Put, Sink};
use mix_base::{CallList, NoMemory};
use std::alloc::Global;
use std::marker::Model;

/// A sink in memory. Contracts see what it holds, its room, the calls and the faults.
#[derive(Drop)]
pub struct MemSink {
    bytes: Vec<u8>,
    room: usize,
    calls: CallCount,
    faults: u64,
}

impl Model for MemSink {
    ghost use Rattle.std.specs.Prelude.{◌≤◌, length, vec_capacity};
    ghost use Rattle.mix_outside.specs.Memory.{SinkState};

    ghost Value = { SinkState };

    ghost view = { λ sink. record {
      held = sink.bytes.items;
      room = sink.room;
      calls = sink.calls;
      faults = sink.faults;
    } };

    ghost invariant = { λ sink.
        (length sink.bytes.items ≤ sink.room) × (sink.room ≤ vec_capacity sink.bytes) };
}

impl MemSink {
    ghost use Rattle.mix_outside.specs.Memory.{new_sink};

    /// A sink of so many bytes. Its room is taken here, so that a write takes no memory. The calls
    /// that are to fail are counted from 0.
    pub fn new(alloc: Global, room: usize, failing: CallList) -> Result<MemSink, NoMemory>
        ensures value { IfOk result (λ sink. sink ≡ new_sink room failing) }
    {
        let bytes = Vec::with_capacity(alloc, room)?;
        Ok(MemSink {
            bytes,
            room,
            calls: CallCount::new(failing),
            faults: 0,
        })
    }

    /// The bytes that it holds, in the order of writing.
    pub fn held(&self) -> &[u8]
        ensures value { result.now ≡ self.now.held }
    {
        &self.bytes
    }
}

impl Sink for MemSink {
    ghost use Rattle.mix_outside.specs.Memory.{is_refused, put_of, after_put};

    ghost Tells = { Unit {0} };

    ghost held = { λ sink. sink.held };

    ghost faults = { λ sink. sink.faults };

    fn write(&mut self, piece: &[u8]) -> Put
        ensures value { result ≡ put_of self.old piece.now }
        ensures failed { result ≡ Put.Failed ↔ IsTrue (is_refused self.old piece.now) }
        ensures state { self.new ≡ after_put self.old piece.now }
        ensures bytes { Puts result piece.now self.old.held self.new.held }
        ensures later { self.old.faults ≤ self.new.faults }
        ensures cause { result ≡ Put.Failed → Rose self.old.faults self.new.faults }
        ensures steady { result ≢ Put.Failed → self.new.faults ≡ self.old.faults }
    {
        let named = self.calls.begin();
        let fits = self.room - self.bytes.len();
        let count = if named { 0 } else { piece.len().min(fits) };
        // The room was taken when the sink was made.
        self.bytes.extend_from_slice(&piece[..count]).unwrap();
        if named || count < piece.len() {
            self.faults = self.faults.saturating_add(1);
            return Put::Failed;
        }
        Put::Done
    }
}
