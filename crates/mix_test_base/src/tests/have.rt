//! What a test has to have.
ghost use Rattle.std.specs.Prelude.{◌≡◌, Ok};

use std::alloc::Global;
use std::process::Abort;

/// A value that comes wherever there is memory.
pub fn have<T, E: Drop>(rt: &impl Abort, made: Result<T, E>) -> T
    ensures { made ≡ Ok result }
{
    match made {
        Ok(value) => value,
        Err(_) => panic!(rt; "a value isn't there"),
    }
}

/// So many bytes, each this letter.
pub fn letters(rt: &impl Abort, alloc: Global, letter: u8, length: usize) -> Vec<u8> {
    have(rt, vec![in alloc; letter; length])
}

/// Whether all bytes are this letter, and they are so many.
pub fn are_letters(bytes: &[u8], letter: u8, length: usize) -> bool {
    bytes.len() == length && bytes.iter().all(|byte| *byte == letter)
}
