//! Why a collection isn't read.
use mix_base::NoMemory;
use std::alloc::AllocFailed;

/// Why no collection was read.
#[derive(Clone, Copy)]
pub enum CollectionFault {
    /// The bytes write no collection that is built: the doing of who wrote them.
    NotBuilt,
    /// The source failed.
    Failed,
    /// There was no memory for it.
    NoMemory,
}

impl From<NoMemory> for CollectionFault {
    ghost use Rattle.mix_collection.specs.declared.collection_fault.CollectionFault.TheVariants.{NoMemory};
    ghost use Rattle.std.specs.Prelude.{◌≡◌};

    ghost from_gives = { λ e r. r ≡ NoMemory };

    fn from(_fault: NoMemory) -> CollectionFault {
        CollectionFault::NoMemory
    }
}

impl<T: Drop> From<AllocFailed<T>> for CollectionFault {
    ghost use Rattle.mix_collection.specs.declared.collection_fault.CollectionFault.TheVariants.{NoMemory};
    ghost use Rattle.std.specs.Prelude.{◌≡◌};

    ghost from_gives = { λ e r. r ≡ NoMemory };

    fn from(refused: AllocFailed<T>) -> CollectionFault {
        drop(refused);
        CollectionFault::NoMemory
    }
}
