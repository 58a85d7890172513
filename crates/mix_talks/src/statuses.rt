//! The names of statuses.
use mix_base::NoMemory;
use mix_events::status_name;
use mix_tables::{Table, number};
use std::alloc::Global;

/// Cells: the name or `none`, and the number.
pub struct Statuses;

impl Table for Statuses {
    fn found(&self, alloc: Global, line: &str) -> Result<String, NoMemory> {
        let code = u16::try_from(number(line, 1)).unwrap_or(0);
        Ok(String::from_str(alloc, status_name(code).unwrap_or("none"))?)
    }
}
