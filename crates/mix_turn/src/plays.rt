//! What each step of the lock tells, as the table takes it.
ghost use Rattle.mix_turn.specs.Steps.{looked, counted, spared, tried, advanced};
ghost use Rattle.mix_turn.specs.Views.{splitter_view, child_view, both_views, spent_view};

use crate::turned::Turned;
use crate::view::View;
use atomic_table::{Join, Play, Split};
use std::marker::PhantomData;

/// Looks at the serving number.
pub(crate) struct Look;

impl<V, E, S> Play<Option<V>, View<E, S>> for Look {
    ghost then = { looked };
}

/// Looks at how many numbers were given.
pub(crate) struct Count;

impl<V, E, S> Play<Option<V>, View<E, S>> for Count {
    ghost then = { counted };
}

/// Takes a number for a new pass.
pub(crate) struct Spare;

impl<V, E, S> Play<Option<V>, View<E, S>> for Spare {
    ghost then = { spared };
}

/// Tries a ticket.
pub(crate) struct Try<V> {
    of: PhantomData<V>,
}

impl<V: Turned> Play<Option<V>, View<V::Entry, V::Start>> for Try<V> {
    ghost then = { tried V.journal V.misses V.start V.full };
}

/// Serves the next.
pub(crate) struct Advance<V> {
    of: PhantomData<V>,
}

impl<V: Turned> Play<Option<V>, View<V::Entry, V::Start>> for Advance<V> {
    ghost then = { advanced V.journal V.full };
}

/// Gives a new pass a view of its own.
pub(crate) struct Halves;

impl<E, S> Split<View<E, S>> for Halves {
    ghost left = { splitter_view };

    ghost right = { child_view };
}

/// Puts two passes' views together.
pub(crate) struct Both;

impl<E, S> Join<View<E, S>> for Both {
    ghost both = { both_views };

    ghost spent = { spent_view };
}
