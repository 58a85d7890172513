//! The UUID that stands for a serial in answers and events.
ghost use Rattle.std.specs.Prelude.{◌≡◌, ◌<◌, ◌+◌, ◌^◌, IfOk};
ghost use Rattle.mix_base.specs.Uuids.{uuid_of};
ghost use Rattle.std.specs.Int.{to_be_bytes, w128};

use crate::{NoMemory, Serial, Text};
use std::alloc::Global;
use uuid::Uuid;

/// The text of the UUID (RFC 9562, version 8) whose last twelve digits are the serial, in lower
/// case with hyphens.
pub fn uuid_text(alloc: Global, serial: Serial) -> Result<Text, NoMemory>
    requires { serial < 2 ^ 48 }
    ensures value { IfOk result (λ text. text ≡ uuid_of serial) }
{
    let id = uuid_of(serial);
    let mut buffer = Uuid::encode_buffer();
    let text = id.hyphenated().encode_lower(&mut buffer);
    Text::from_str(alloc, text)
}

/// The UUID of version 8 whose last twelve digits are the serial.
fn uuid_of(serial: Serial) -> Uuid
    requires { serial < 2 ^ 48 }
    ensures { result ≡ to_be_bytes w128 (2 ^ 79 + 2 ^ 63 + serial) }
{
    Uuid::from_u128(0x8000_8000_0000_0000_0000 + u128::from(serial.0))
}
