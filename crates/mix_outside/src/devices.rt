//! What the system is asked for, one call at a time, and what its answers come to.
ghost use Rattle.std.specs.Prelude.{◌≡◌, ◌<◌, ◌≤◌, List, ℕ, Option, Ok, IfNone, IfSome};
ghost use Rattle.std.specs.Io.{ReadsAtMost, WritesAtMost};
ghost use Rattle.mix_outside.specs.Devices.{answer_of, take_for, faults_after_take, IsFault, Writes};
ghost use Rattle.mix_outside.specs.Memory.{faults_after};

use crate::{Put, Take};
use std::io;

/// Something of the system that gives bytes.
pub trait InDevice {
    /// What one call may do: the device before, the slice after, the answer, the device after.
    ghost gives: { Self → List ℕ → Option ℕ → Self → Type 0 };

    /// One call of the system, which reads into the front of a slice.
    fn give(&mut self, into: &mut [u8]) -> io::Result<usize>
        ensures within { ReadsAtMost result into.new }
        ensures gives { gives self.old into.new (answer_of result) self.new };
}

/// Something of the system that takes bytes.
pub trait OutDevice {
    /// What one call may do: the device before, the piece, the answer, the device after.
    ghost accepts: { Self → List ℕ → Option ℕ → Self → Type 0 };

    /// One call of the system, which takes some front of a piece.
    fn accept(&mut self, piece: &[u8]) -> io::Result<usize>
        ensures within { WritesAtMost result piece.now }
        ensures accepts { accepts self.old piece.now (answer_of result) self.new };
}

/// What an answer to a read comes to. A fault is counted.
pub(crate) fn take_of(answer: io::Result<usize>, faults: &mut u64) -> Take
    ensures value { result ≡ take_for (answer_of answer) }
    ensures count { faults.new ≡ faults_after_take result faults.old }
    ensures later { faults.old ≤ faults.new }
{
    match answer {
        Ok(0) => Take::End,
        Ok(count) => Take::Bytes(count),
        Err(_) => {
            *faults = faults.saturating_add(1);
            Take::Failed
        }
    }
}

/// What a write came to. A fault is counted.
pub(crate) fn put_of(put: Put, faults: &mut u64) -> Put
    ensures value { result ≡ put }
    ensures count { faults.new ≡ faults_after put faults.old }
    ensures later { faults.old ≤ faults.new }
{
    if let Put::Failed = put {
        *faults = faults.saturating_add(1);
    }
    put
}

/// How many bytes an answer to a write took; none where it is a fault.
fn taken_of(answer: io::Result<usize>) -> Option<usize>
    ensures value { IfSome result (λ count. answer ≡ Ok count) }
    ensures taken { IfSome result (λ count. 0 < count) }
    ensures fault { IfNone result (IsFault (answer_of answer)) }
{
    match answer {
        Ok(0) | Err(_) => None,
        Ok(count) => Some(count),
    }
}

/// Writes a piece whole: after a call that took some of it comes one for the rest. An error, and a
/// call that takes nothing, end it.
pub(crate) fn write_whole<D: OutDevice>(device: &mut D, piece: &[u8]) -> Put
    ensures writes { Writes D.accepts device.old piece.now result device.new }
{
    let mut rest = piece;
    'calls: while !rest.is_empty() {
        let Some(count) = taken_of(device.accept(rest)) else {
            return Put::Failed;
        };
        rest = rest.split_at(count).1;
    }
    Put::Done
}
