//! Why an answer isn't written.
use mix_base::NoMemory;
use std::alloc::AllocError;

/// Why an answer isn't written.
#[derive(Clone, Copy)]
pub enum WriteFault {
    /// The sink failed, and its count of faults tells so: the doing of the outside.
    Failed,
    /// There was no memory for a line.
    NoMemory,
}

impl From<NoMemory> for WriteFault {
    ghost use Rattle.mix_script.specs.declared.write_fault.WriteFault.TheVariants.{NoMemory};
    ghost use Rattle.std.specs.Prelude.{◌≡◌};

    ghost from_gives = { λ e r. r ≡ NoMemory };

    fn from(_fault: NoMemory) -> WriteFault {
        WriteFault::NoMemory
    }
}
