//! The lock's rule, as the table keeps it.
use crate::start::Start;
use crate::turned::Turned;
use crate::view::View;
use atomic_table::TableRule;
use std::marker::PhantomData;

/// The rule of a turnstile over values of type `V`. No value of it is made.
pub struct Law<V> {
    of: PhantomData<V>,
}

impl<V: Turned> TableRule<Option<V>, View<V::Entry, V::Start>, Start<V>> for Law<V> {
    ghost use Rattle.mix_turn.specs.Rule.{Rule};
    ghost use Rattle.mix_turn.specs.Views.{first_view};

    ghost holds = { λ start. Rule V.journal V.misses V.start V.full start.seat.me.0 };

    ghost first = { λ start. first_view start.seat.me.0 };
}
