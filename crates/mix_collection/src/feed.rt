//! The lines of a collection, of which no more than a number of bytes are read.
ghost use Rattle.std.specs.Prelude.{◌≡◌, ◌≢◌, ◌<◌, ◌≤◌, [], Ok, Err, IfOk, true};
ghost use Rattle.mix_outside.specs.Faults.{Rose};
ghost use Rattle.mix_collection.specs.Collections.{is_end, most_bytes};
ghost use Rattle.mix_collection.specs.Read.{Takes, IsAtEnd};
ghost use Rattle.mix_collection.specs.Within.{Gives, lines_left};

use crate::collection_fault::CollectionFault;
use mix_base::NoMemory;
use mix_outside::{Met, ReadAhead, Source};
use std::alloc::Global;

/// The bytes that a collection has at most.
const MOST_BYTES: u64 = 268_435_456;

/// What stood first of what was left.
#[derive(Clone, Copy)]
pub enum Next {
    /// A line with a line feed.
    Line,
    /// Nothing.
    End,
    /// A line without a line feed, or without room.
    Cut,
    /// The source failed.
    ReadFault,
    /// There was no memory for the line.
    NoMemory,
}

/// A reader of lines.
#[derive(Drop)]
pub struct Feed {
    /// What is read ahead.
    pub ahead: ReadAhead,
    /// How many more bytes are read.
    pub room: u64,
    /// The line that was read last.
    pub line: Vec<u8>,
}

impl Feed {
    pub fn new(alloc: Global) -> Result<Feed, NoMemory>
        ensures ahead { IfOk result (λ feed. feed.ahead ≡ []) }
        ensures room { IfOk result (λ feed. feed.room ≡ most_bytes) }
    {
        let ahead = ReadAhead::new(alloc)?;
        Ok(Feed {
            ahead,
            room: MOST_BYTES,
            line: Vec::new(alloc),
        })
    }

    /// Reads the next line into `line`.
    pub fn next<S: Source>(&mut self, source: &mut S) -> Next
        ensures lines { S.Tells → Gives result self.new.line.items
            (lines_left self.old (S.left source.old)) (lines_left self.new (S.left source.new)) }
        ensures drained { S.Tells → result ≡ Next.End → S.left source.new ≡ [] }
        ensures room { result ≡ Next.Line → self.new.room < self.old.room }
        ensures later { S.faults source.old ≤ S.faults source.new }
        ensures cause { result ≡ Next.ReadFault → Rose (S.faults source.old) (S.faults source.new) }
        ensures steady { result ≢ Next.ReadFault → S.faults source.new ≡ S.faults source.old }
    {
        match self.ahead.next_line(source, self.room, &mut self.line) {
            Met::Whole => {
                self.room -= self.line.len() as u64 + 1;
                Next::Line
            }
            Met::Last => {
                if self.line.is_empty() {
                    Next::End
                } else {
                    Next::Cut
                }
            }
            Met::Past => Next::Cut,
            Met::Failed => Next::ReadFault,
            Met::NoMemory => Next::NoMemory,
        }
    }

    /// Reads the line into `line` that stands first with a line feed; without one nothing is built.
    pub fn take_line<S: Source>(&mut self, source: &mut S) -> Result<(), CollectionFault>
        ensures lines { S.Tells → Takes result self.new.line.items
            (lines_left self.old (S.left source.old)) (lines_left self.new (S.left source.new)) }
        ensures room { IfOk result (λ done. self.new.room < self.old.room) }
        ensures later { S.faults source.old ≤ S.faults source.new }
        ensures cause { result ≡ Err CollectionFault.Failed →
            Rose (S.faults source.old) (S.faults source.new) }
        ensures steady { result ≢ Err CollectionFault.Failed →
            S.faults source.new ≡ S.faults source.old }
    {
        match self.next(source) {
            Next::Line => Ok(()),
            Next::End | Next::Cut => Err(CollectionFault::NotBuilt),
            Next::ReadFault => Err(CollectionFault::Failed),
            Next::NoMemory => Err(CollectionFault::NoMemory),
        }
    }

    /// Finds nothing left; with something left nothing is built.
    pub fn find_end<S: Source>(&mut self, source: &mut S) -> Result<(), CollectionFault>
        ensures value { S.Tells → IsAtEnd result (lines_left self.old (S.left source.old)) }
        ensures drained { S.Tells → IfOk result (λ done. S.left source.new ≡ []) }
        ensures later { S.faults source.old ≤ S.faults source.new }
        ensures cause { result ≡ Err CollectionFault.Failed →
            Rose (S.faults source.old) (S.faults source.new) }
        ensures steady { result ≢ Err CollectionFault.Failed →
            S.faults source.new ≡ S.faults source.old }
    {
        match self.next(source) {
            Next::End => Ok(()),
            Next::Line | Next::Cut => Err(CollectionFault::NotBuilt),
            Next::ReadFault => Err(CollectionFault::Failed),
            Next::NoMemory => Err(CollectionFault::NoMemory),
        }
    }
}
