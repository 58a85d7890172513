//! Why a request isn't done.
use mix_base::NoMemory;
use mix_model::GraphFault;
use std::alloc::{AllocError, AllocFailed};

/// Why a request isn't done.
#[derive(Clone, Copy)]
pub enum Refused {
    /// It is answered with this status of obs-websocket 5.
    Status(u16),
    /// There was no memory for it.
    NoMemory,
}

impl From<u16> for Refused {
    ghost use Rattle.std.specs.Prelude.{◌≡◌};
    ghost use Rattle.mix_requests.specs.declared.refused.Refused.TheVariants.{Status};

    ghost from_gives = { λ status refused. refused ≡ Status status };

    fn from(status: u16) -> Refused {
        Refused::Status(status)
    }
}

impl From<GraphFault> for Refused {
    ghost use Rattle.std.specs.Prelude.{◌≡◌};
    ghost use Rattle.mix_requests.specs.Refusals.{refused_as};

    ghost from_gives = { λ fault refused. refused ≡ refused_as fault };

    fn from(fault: GraphFault) -> Refused {
        match fault {
            GraphFault::NotFound => Refused::Status(600),
            GraphFault::Exists => Refused::Status(601),
            GraphFault::WrongKind => Refused::Status(602),
            GraphFault::TooMany { .. } => Refused::Status(603),
            GraphFault::Cycle | GraphFault::Depth => Refused::Status(700),
            GraphFault::NoMemory => Refused::NoMemory,
        }
    }
}

impl From<NoMemory> for Refused {
    ghost use Rattle.std.specs.Prelude.{◌≡◌};
    ghost use Rattle.mix_requests.specs.declared.refused.Refused.TheVariants.{NoMemory};

    ghost from_gives = { λ _ refused. refused ≡ NoMemory };

    fn from(_fault: NoMemory) -> Refused {
        Refused::NoMemory
    }
}

impl From<AllocError> for Refused {
    ghost use Rattle.std.specs.Prelude.{◌≡◌};
    ghost use Rattle.mix_requests.specs.declared.refused.Refused.TheVariants.{NoMemory};

    ghost from_gives = { λ _ refused. refused ≡ NoMemory };

    fn from(_error: AllocError) -> Refused {
        Refused::NoMemory
    }
}

impl<T: Drop> From<AllocFailed<T>> for Refused {
    ghost use Rattle.std.specs.Prelude.{◌≡◌};
    ghost use Rattle.mix_requests.specs.declared.refused.Refused.TheVariants.{NoMemory};

    ghost from_gives = { λ _ refused. refused ≡ NoMemory };

    fn from(_error: AllocFailed<T>) -> Refused {
        Refused::NoMemory
    }
}
