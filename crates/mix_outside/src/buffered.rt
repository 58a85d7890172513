//! A source whose bytes are read ahead.
ghost use Rattle.std.specs.Prelude.{◌≡◌, ◌<◌, ◌≤◌, ◌++◌, IfOk};
ghost use Rattle.mix_outside.specs.Faults.{Rose};
ghost use Rattle.mix_outside.specs.Lines.{lines_of};

use crate::{Met, ReadAhead, Source, Take};
use mix_base::NoMemory;
use std::alloc::Global;

/// A source whose bytes are read ahead. What it has left is what was read ahead, and then what the
/// source behind has left; its faults are those of the source behind.
#[derive(Drop)]
pub struct Buffered<S> {
    ahead: ReadAhead,
    source: S,
}

impl<S: Source> Source for Buffered<S> {
    ghost Tells = { S.Tells };

    ghost left = { λ buffered. buffered.ahead ++ S.left buffered.source };

    ghost faults = { λ buffered. S.faults buffered.source };

    fn read(&mut self, into: &mut [u8]) -> Take {
        self.ahead.read(&mut self.source, into)
    }
}

impl<S: Source + Drop> Buffered<S> {
    ghost use Rattle.mix_outside.specs.Meeting.{FitsIn, Meets};

    /// Its memory is taken here.
    pub fn new(alloc: Global, source: S) -> Result<Buffered<S>, NoMemory>
        ensures left { IfOk result (λ buffered.
            ⟦<Buffered<S> as Source>⟧.left buffered ≡ S.left source) }
        ensures faults { IfOk result (λ buffered.
            ⟦<Buffered<S> as Source>⟧.faults buffered ≡ S.faults source) }
    {
        let ahead = ReadAhead::new(alloc)?;
        Ok(Buffered { ahead, source })
    }
}
