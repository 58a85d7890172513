//! What the object of an event gives; a field that isn't there, or is of another type, gives the
//! least of its type.
ghost use Rattle.std.specs.Prelude.{◌<◌, ◌^◌, IfOk};
ghost use Rattle.mix_events.specs.Sayable.{IsShort, IsWhole};

use mix_base::{ItemId, JsonObj, Name, NoMemory, Serial};
use mix_json::{need_bool, need_int, need_kept, need_text};
use std::alloc::Global;

/// The name under a key, where there is one.
pub fn name(data: &JsonObj, key: &str) -> Option<Name> {
    let text = need_text(data, key).ok()?;
    Name::read(text.bytes()).ok()
}

/// The serial of the UUID under a key.
pub fn serial(data: &JsonObj, key: &str) -> Serial
    ensures { IsShort result }
{
    match need_text(data, key) {
        Ok(uuid) => last_digits(uuid.as_str()),
        Err(_) => Serial(0),
    }
}

/// The number of the last twelve digits of a UUID.
fn last_digits(uuid: &str) -> Serial
    ensures { IsShort result }
{
    let (_, digits) = uuid.rsplit_once('-').unwrap_or(("", uuid));
    let number = u64::from_str_radix(digits, 16).unwrap_or(0);
    Serial(number % 0x1_0000_0000_0000)
}

pub fn truth(data: &JsonObj, key: &str) -> bool {
    need_bool(data, key).unwrap_or(false)
}

pub fn whole(data: &JsonObj, key: &str) -> i64 {
    need_int(data, key).unwrap_or(0)
}

pub fn count(data: &JsonObj, key: &str) -> u32 {
    u32::try_from(whole(data, key)).unwrap_or(0)
}

pub fn item(data: &JsonObj, key: &str) -> ItemId {
    ItemId(count(data, key))
}

/// A copy of the object under a key.
pub fn settings(alloc: Global, data: &JsonObj, key: &str) -> Result<JsonObj, NoMemory>
    ensures { IfOk result IsWhole }
{
    match need_kept(data, key) {
        Ok(obj) => obj.copy(alloc),
        Err(_) => Ok(JsonObj::new(alloc)),
    }
}
