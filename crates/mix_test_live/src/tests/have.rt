//! What a test has to have.
ghost use Rattle.std.specs.Prelude.{◌≡◌, Ok};

use mix_base::{Bytes, CallList, Text};
use std::alloc::Global;
use std::process::Abort;

/// A value that comes wherever there is memory.
pub fn have<T, E: Drop>(rt: &impl Abort, made: Result<T, E>) -> T
    ensures { made ≡ Ok result }
{
    match made {
        Ok(value) => value,
        Err(_) => panic!(rt; "a value isn't there"),
    }
}

/// Bytes, as a message has them.
pub fn owned(rt: &impl Abort, alloc: Global, bytes: &[u8]) -> Bytes {
    Bytes::from_vec(have(rt, Vec::from_slice(alloc, bytes)))
}

/// The calls that are to fail.
pub fn calls(rt: &impl Abort, alloc: Global, failing: &[u64]) -> CallList {
    CallList::from_vec(have(rt, Vec::from_slice(alloc, failing)))
}

pub fn text(rt: &impl Abort, alloc: Global, text: &str) -> Text {
    have(rt, Text::from_str(alloc, text))
}
