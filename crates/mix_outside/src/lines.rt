//! Reading line by line, through bytes that are read ahead.
ghost use Rattle.std.specs.Prelude.{◌≡◌, ◌≢◌, ◌<◌, ◌≤◌, ◌++◌, [], length, position};
ghost use Rattle.mix_outside.specs.Faults.{Rose};
ghost use Rattle.mix_outside.specs.Lines.{is_feed, lines_of};

use crate::read_ahead::Filled;
use crate::{ReadAhead, Source};

/// What a reader of lines met.
#[derive(Clone, Copy)]
pub enum Met {
    /// A line that has a line feed.
    Whole,
    /// What stands behind the last line feed: a line without one, or nothing.
    Last,
    /// A line that takes more bytes than there is room for. What is left is not told.
    Past,
    /// The source failed. What is left is not told.
    Failed,
    /// There was no memory for the line. What is left is not told.
    NoMemory,
}

/// What came of moving bytes onto a line.
#[derive(Clone, Copy, PartialEq, Eq)]
enum Run {
    /// The line has come to its line feed.
    Whole,
    /// It has not, and all that stood ahead is moved.
    Open,
    /// The line takes more bytes than there is room for.
    Past,
    /// There was no memory for it.
    NoMemory,
}

/// Where the first line feed stands.
fn feed_at(bytes: &[u8]) -> Option<usize>
    ensures value { result ≡ position is_feed bytes.now }
{
    bytes.iter().position(|byte| *byte == b'\n')
}

impl ReadAhead {
    ghost use Rattle.mix_outside.specs.Meeting.{FitsIn, Meets};
    ghost use Rattle.mix_outside.specs.Moving.{Moves, Grows};

    /// Moves bytes onto a line, up to its line feed.
    fn move_run(&mut self, room: u64, line: &mut Vec<u8>) -> Run
        requires ahead { 0 < length self.old }
        requires begun { length line.old.items ≤ room }
        ensures bytes { Moves result room self.old self.new line.old.items line.new.items }
        ensures room { Grows result room line.old.items line.new.items }
    {
        let ahead = self.bytes();
        let fits = room - line.len() as u64;
        match feed_at(ahead) {
            Some(at) => {
                if at as u64 >= fits {
                    return Run::Past;
                }
                if line.extend_from_slice(&ahead[..at]).is_err() {
                    return Run::NoMemory;
                }
                self.consume(at + 1);
                Run::Whole
            }
            None => {
                if ahead.len() as u64 > fits {
                    return Run::Past;
                }
                if line.extend_from_slice(ahead).is_err() {
                    return Run::NoMemory;
                }
                let count = ahead.len();
                self.consume(count);
                Run::Open
            }
        }
    }

    /// Reads the next line, without its line feed, in place of what `line` held. It may take
    /// `room` bytes, its line feed among them.
    pub fn next_line<S: Source>(&mut self, source: &mut S, room: u64, line: &mut Vec<u8>) -> Met
        ensures fits { FitsIn result room line.new.items }
        ensures lines { S.Tells → Meets result room line.new.items
            (lines_of (self.old ++ S.left source.old)) (lines_of (self.new ++ S.left source.new)) }
        ensures end { S.Tells → result ≡ Met.Last → self.new ++ S.left source.new ≡ [] }
        ensures later { S.faults source.old ≤ S.faults source.new }
        ensures cause { result ≡ Met.Failed → Rose (S.faults source.old) (S.faults source.new) }
        ensures steady { result ≢ Met.Failed → S.faults source.new ≡ S.faults source.old }
    {
        line.clear();
        'runs: loop {
            match self.fill(source) {
                Filled::More => {}
                Filled::End => return Met::Last,
                Filled::Failed => return Met::Failed,
            }
            match self.move_run(room, line) {
                Run::Whole => return Met::Whole,
                Run::Open => {}
                Run::Past => return Met::Past,
                Run::NoMemory => return Met::NoMemory,
            }
        }
    }
}
