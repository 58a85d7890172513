//! Why a test ends early.
use mix_base::{NameFault, NoMemory};
use std::alloc::{AllocError, AllocFailed};

/// Why a test ends early.
#[derive(Clone, Copy, Debug)]
pub enum Trouble {
    /// Something isn't as the test says.
    Wrong,
    /// There was no memory for it.
    NoMemory,
}

impl From<NoMemory> for Trouble {
    fn from(_fault: NoMemory) -> Trouble {
        Trouble::NoMemory
    }
}

impl From<NameFault> for Trouble {
    fn from(_fault: NameFault) -> Trouble {
        Trouble::Wrong
    }
}

impl From<AllocError> for Trouble {
    fn from(_error: AllocError) -> Trouble {
        Trouble::NoMemory
    }
}

impl<T: Drop> From<AllocFailed<T>> for Trouble {
    fn from(_error: AllocFailed<T>) -> Trouble {
        Trouble::NoMemory
    }
}
