//! A token that shows the start of a value.
ghost use Rattle.std.specs.Prelude.{◌≡◌, IfOk};

use crate::turned::Turned;
use atomic_table::{Seat, Table, TableRule};
use std::alloc::{AllocError, Global};
use std::marker::PhantomData;

/// It has no bytes. The view of its seat is the start.
#[derive(Drop)]
pub struct Start<V: Turned> {
    seat: Seat<(), V::Start>,
}

/// A table of nothing, whose one view is the start of the value that it is told.
struct Shows<V> {
    of: PhantomData<V>,
}

impl<V: Turned> TableRule<(), V::Start, V> for Shows<V> {
    ghost holds = { λ _ _. Unit {0} };

    ghost first = { λ value. V.start value };
}

impl<V: Turned> Start<V> {
    /// The start of this value.
    pub(crate) fn of(alloc: Global, value: &V) -> Result<Start<V>, AllocError>
        ensures { IfOk result (λ start. start.seat.me.0 ≡ V.start value.now) }
    {
        let (_, seat) = Table::<(), V::Start, V, Shows<V>, Global>::of_words(alloc, &[], value)?;
        Ok(Start { seat })
    }
}
