//! Which bytes are a name.
use mix_base::{Name, NameFault, NoMemory};
use mix_tables::{Table, pieces};
use std::alloc::Global;

/// Cells: `taken` or why not, and then the pieces of the bytes.
pub struct Names;

impl Table for Names {
    fn found(&self, alloc: Global, line: &str) -> Result<String, NoMemory> {
        let bytes = pieces(alloc, line, 1)?;
        Ok(String::from_str(alloc, taken(bytes.as_slice()))?)
    }
}

fn taken(bytes: &[u8]) -> &'static str {
    match Name::read(bytes) {
        Ok(_) => "taken",
        Err(fault) => named(fault),
    }
}

fn named(fault: NameFault) -> &'static str {
    match fault {
        NameFault::Empty => "Empty",
        NameFault::Long => "Long",
        NameFault::NotUtf8 => "NotUtf8",
        NameFault::Control => "Control",
    }
}
