//! From bytes to a JSON value.
ghost use Rattle.std.specs.Prelude.{◌≡◌, Some, None, IfOk};
ghost use Rattle.mix_json.specs.Reading.{json_of};

use crate::reader::JsonReader;
use mix_base::{Json, NoMemory};
use std::alloc::Global;

/// Why bytes gave no value.
#[derive(Clone, Copy)]
pub enum JsonFault {
    /// They are no JSON text in UTF-8: the doing of who gave them.
    NotJson,
    /// There was no memory for it.
    NoMemory,
}

impl From<NoMemory> for JsonFault {
    ghost use Rattle.mix_json.specs.declared.reading.JsonFault.TheVariants.{NoMemory};
    ghost use Rattle.std.specs.Prelude.{◌≡◌};

    ghost from_gives = { λ e r. r ≡ NoMemory };

    fn from(_fault: NoMemory) -> JsonFault {
        JsonFault::NoMemory
    }
}

/// The value that bytes stand for, where one text is read; who reads many keeps a reader.
pub fn read(alloc: Global, bytes: &[u8]) -> Result<Json, JsonFault>
    ensures value { IfOk result (λ value. json_of bytes.now ≡ Some value) }
    ensures not_json { result ≡ Err JsonFault.NotJson → json_of bytes.now ≡ None }
{
    let mut reader = JsonReader::new(alloc)?;
    reader.read(bytes)
}
