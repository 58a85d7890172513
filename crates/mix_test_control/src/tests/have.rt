//! What a test has to have.
ghost use Rattle.std.specs.Prelude.{◌≡◌, Ok};

use std::process::Abort;

/// A value that comes wherever there is memory.
pub fn have<T, E: Drop>(rt: &impl Abort, made: Result<T, E>) -> T
    ensures { made ≡ Ok result }
{
    match made {
        Ok(value) => value,
        Err(_) => panic!(rt; "a value isn't there"),
    }
}
