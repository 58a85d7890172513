//! The UUIDs of sources.
ghost use Rattle.std.specs.Prelude.{◌≡◌, ◌+◌, ◌^◌, OnOk};
ghost use Rattle.std.specs.Int.{to_be_bytes, w128};
ghost use Rattle.mix_base.specs.declared.json.Json as json;
ghost use Rattle.mix_base.specs.Uuids.{uuid_of};
ghost use Rattle.mix_json.specs.Growing.{more_field};
ghost use Rattle.mix_events.specs.Sayable.{IsShort};

use mix_base::{NoMemory, Serial};
use mix_json::JsonText;
use uuid::Uuid;

/// With the UUID that a serial gives.
pub fn with_uuid(out: &mut JsonText, key: &str, serial: Serial) -> Result<(), NoMemory>
    requires { IsShort serial }
    ensures value { OnOk result
        (out.new ≡ more_field key.now (json.Text (uuid_of serial)) out.old) }
{
    let id = number_of(serial);
    let mut buffer = Uuid::encode_buffer();
    let text = id.hyphenated().encode_lower(&mut buffer);
    out.text(key, text)
}

/// The UUID of version 8 whose last twelve digits are the serial.
fn number_of(serial: Serial) -> Uuid
    requires { IsShort serial }
    ensures { result ≡ to_be_bytes w128 (2 ^ 79 + 2 ^ 63 + serial) }
{
    Uuid::from_u128(0x8000_8000_0000_0000_0000 + u128::from(serial.0))
}
