//! Why a message comes to nothing.
use mix_base::NoMemory;
use std::alloc::{AllocError, AllocFailed};

/// Why a message comes to nothing.
#[derive(Clone, Copy)]
pub enum Fault {
    /// It closes the connection with this code: the doing of who sent it.
    Close(u16),
    /// There was no memory for it.
    NoMemory,
}

impl From<u16> for Fault {
    ghost use Rattle.std.specs.Prelude.{◌≡◌};
    ghost use Rattle.mix_session.specs.declared.fault.Fault.TheVariants.{Close};

    ghost from_gives = { λ code fault. fault ≡ Close code };

    fn from(code: u16) -> Fault {
        Fault::Close(code)
    }
}

impl From<NoMemory> for Fault {
    ghost use Rattle.std.specs.Prelude.{◌≡◌};
    ghost use Rattle.mix_session.specs.declared.fault.Fault.TheVariants.{NoMemory};

    ghost from_gives = { λ _ fault. fault ≡ NoMemory };

    fn from(_fault: NoMemory) -> Fault {
        Fault::NoMemory
    }
}

impl From<AllocError> for Fault {
    ghost use Rattle.std.specs.Prelude.{◌≡◌};
    ghost use Rattle.mix_session.specs.declared.fault.Fault.TheVariants.{NoMemory};

    ghost from_gives = { λ _ fault. fault ≡ NoMemory };

    fn from(_error: AllocError) -> Fault {
        Fault::NoMemory
    }
}

impl<T: Drop> From<AllocFailed<T>> for Fault {
    ghost use Rattle.std.specs.Prelude.{◌≡◌};
    ghost use Rattle.mix_session.specs.declared.fault.Fault.TheVariants.{NoMemory};

    ghost from_gives = { λ _ fault. fault ≡ NoMemory };

    fn from(error: AllocFailed<T>) -> Fault {
        drop(error);
        Fault::NoMemory
    }
}
