//! Why a program ends before it has gone through its tables.
use mix_base::NoMemory;
use std::alloc::AllocError;
use std::io;

/// Why a program ends before it has gone through its tables.
#[derive(Clone, Copy)]
pub enum Trouble {
    /// A table can't be read, or a line can't be written.
    Outside,
    /// There was no memory for it.
    NoMemory,
}

impl From<NoMemory> for Trouble {
    fn from(_fault: NoMemory) -> Trouble {
        Trouble::NoMemory
    }
}

impl From<AllocError> for Trouble {
    fn from(_error: AllocError) -> Trouble {
        Trouble::NoMemory
    }
}

impl From<io::Error> for Trouble {
    fn from(_error: io::Error) -> Trouble {
        Trouble::Outside
    }
}
