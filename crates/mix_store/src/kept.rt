//! What is kept of holds, watches and frames in flight, and of how sources stood.
use mix_base::Serial;
use std::marker::Model;

/// A hold: its source isn't destroyed meanwhile.
#[derive(Clone, Copy)]
pub struct Holding {
    pub id: u64,
    pub serial: Serial,
}

impl Model for Holding {
    ghost use Rattle.mix_model.specs.State.{Hold};

    ghost Value = { Hold };

    ghost view = { λ hold. record { id = hold.id; serial = hold.serial } };

    ghost inverse = { λ hold. record { id = hold.id; serial = hold.serial } };
}

/// A watch, which holds nothing.
#[derive(Clone, Copy)]
pub struct Watching {
    pub id: u64,
    pub serial: Serial,
}

impl Model for Watching {
    ghost use Rattle.mix_model.specs.State.{Watch};

    ghost Value = { Watch };

    ghost view = { λ watch. record { id = watch.id; serial = watch.serial } };

    ghost inverse = { λ watch. record { id = watch.id; serial = watch.serial } };
}

/// A frame in flight, with the sources that it lists.
#[derive(Drop)]
pub struct InFlight {
    pub number: u64,
    pub serials: Vec<Serial>,
}

impl Model for InFlight {
    ghost use Rattle.mix_model.specs.State.{Frame};

    ghost Value = { Frame };

    ghost view = { λ frame. record { number = frame.number; serials = frame.serials.items } };
}

/// How a source stood when the action began.
#[derive(Clone, Copy)]
pub struct Stood {
    pub serial: Serial,
    pub active: bool,
    pub showing: bool,
    pub since: u64,
}

impl Model for Stood {
    ghost use Rattle.mix_model.specs.Marks.{Mark};

    ghost Value = { Mark };

    ghost view = { λ mark. record {
      serial = mark.serial;
      active = mark.active;
      showing = mark.showing;
      since = mark.since;
    } };

    ghost inverse = { λ mark. record {
      serial = mark.serial;
      active = mark.active;
      showing = mark.showing;
      since = mark.since;
    } };
}
