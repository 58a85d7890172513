//! Thirty-two bytes: a salt or a challenge of a login.
use std::marker::Model;

/// Thirty-two bytes: a salt or a challenge of a login. Contracts see the list of them.
#[derive(Clone, Copy)]
pub struct Bytes32(pub [u8; 32]);

impl Model for Bytes32 {
    ghost use Rattle.std.specs.Prelude.{ℕ, List};

    ghost Value = { List ℕ };

    ghost view = { λ bytes. bytes.0 };

    ghost inverse = { λ bytes. record { 0 = bytes } };
}
