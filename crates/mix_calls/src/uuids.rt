//! The UUID of a serial.
use mix_base::{NoMemory, Serial, uuid_text};
use mix_tables::{Table, copied, number};
use std::alloc::Global;

/// Cells: the UUID, and the serial.
pub struct Uuids;

impl Table for Uuids {
    fn found(&self, alloc: Global, line: &str) -> Result<String, NoMemory> {
        let serial = number(line, 1);
        if serial >> 48 != 0 {
            return Ok(String::from_str(alloc, "out of range")?);
        }
        copied(alloc, uuid_text(alloc, Serial(serial))?)
    }
}
