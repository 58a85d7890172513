//! The numbers by which sources, items, connections, keys and passes are told apart.
use std::marker::Model;

/// The number of a source, given from 1 in order of creation and never used again.
#[derive(Clone, Copy, PartialEq, Eq)]
pub struct Serial(pub u64);

impl Model for Serial {
    ghost use Rattle.std.specs.Prelude.{ℕ};

    ghost Value = { ℕ };

    ghost view = { λ serial. serial.0 };

    ghost inverse = { λ n. record { 0 = n } };
}

/// The number of an item in its scene or group, given there from 1 and never used again there.
#[derive(Clone, Copy, PartialEq, Eq)]
pub struct ItemId(pub u32);

impl Model for ItemId {
    ghost use Rattle.std.specs.Prelude.{ℕ};

    ghost Value = { ℕ };

    ghost view = { λ id. id.0 };

    ghost inverse = { λ n. record { 0 = n } };
}

/// The number of a connection, given from 1.
#[derive(Clone, Copy, PartialEq, Eq)]
pub struct ConnId(pub u32);

impl Model for ConnId {
    ghost use Rattle.std.specs.Prelude.{ℕ};

    ghost Value = { ℕ };

    ghost view = { λ conn. conn.0 };

    ghost inverse = { λ n. record { 0 = n } };
}

/// The place of a value in its container.
#[derive(Clone, Copy)]
pub struct Key(pub usize);

impl Model for Key {
    ghost use Rattle.std.specs.Prelude.{ℕ};

    ghost Value = { ℕ };

    ghost view = { λ key. key.0 };

    ghost inverse = { λ n. record { 0 = n } };
}

/// Who made an entry of a history: a pass, and the place among that pass's own entries, from 0.
#[derive(Clone, Copy)]
pub struct PassNo {
    pub pass: u32,
    pub number: u64,
}
