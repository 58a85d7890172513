//! What a change of the program was.
use std::marker::Model;

/// What a call changed, as it is told.
#[derive(Clone, Copy)]
pub struct BusChange {
    /// A running fade ended.
    pub ended: bool,
    /// A transition began, a cut included.
    pub started: bool,
    /// The target is another scene than before.
    pub target: bool,
}

impl Model for BusChange {
    ghost use Rattle.mix_model.specs.Program.{BusChanged};

    ghost Value = { BusChanged };

    ghost view = { λ change. record {
      ended = change.ended;
      started = change.started;
      target = change.target;
    } };

    ghost inverse = { λ change. record {
      ended = change.ended;
      started = change.started;
      target = change.target;
    } };
}

impl BusChange {
    ghost use Rattle.std.specs.Prelude.{◌≡◌};
    ghost use Rattle.mix_model.specs.Program.{no_change};

    /// Nothing changed.
    pub(crate) fn none() -> BusChange
        ensures value { result ≡ no_change }
    {
        BusChange {
            ended: false,
            started: false,
            target: false,
        }
    }
}
