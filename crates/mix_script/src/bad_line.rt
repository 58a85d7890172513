//! Why a line stands for no action.
use mix_base::NoMemory;
use std::alloc::{AllocError, AllocFailed};

/// Why a line stands for no action.
#[derive(Clone, Copy)]
pub enum BadLine {
    /// The line isn't in the table of lines: the doing of who wrote it.
    Form,
    /// What it says isn't in UTF-8, or has another escape: the doing of who wrote it.
    Text,
    /// There was no memory for it.
    NoMemory,
}

impl From<NoMemory> for BadLine {
    ghost use Rattle.mix_script.specs.declared.bad_line.BadLine.TheVariants.{NoMemory};
    ghost use Rattle.std.specs.Prelude.{◌≡◌};

    ghost from_gives = { λ e r. r ≡ NoMemory };

    fn from(_fault: NoMemory) -> BadLine {
        BadLine::NoMemory
    }
}

impl From<AllocError> for BadLine {
    ghost use Rattle.mix_script.specs.declared.bad_line.BadLine.TheVariants.{NoMemory};
    ghost use Rattle.std.specs.Prelude.{◌≡◌};

    ghost from_gives = { λ e r. r ≡ NoMemory };

    fn from(_error: AllocError) -> BadLine {
        BadLine::NoMemory
    }
}

impl<T: Drop> From<AllocFailed<T>> for BadLine {
    ghost use Rattle.mix_script.specs.declared.bad_line.BadLine.TheVariants.{NoMemory};
    ghost use Rattle.std.specs.Prelude.{◌≡◌};

    ghost from_gives = { λ e r. r ≡ NoMemory };

    fn from(_error: AllocFailed<T>) -> BadLine {
        BadLine::NoMemory
    }
}
