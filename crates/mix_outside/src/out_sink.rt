//! A sink over standard output. Trusted edge: no contract says which bytes come out.
ghost use Rattle.std.specs.Prelude.{⊤};

use crate::{DeviceSink, OutDevice};
use std::io::{self, Stdout, Write};

/// A sink over standard output.
pub type OutSink = DeviceSink<Stdout>;

impl OutDevice for Stdout {
    ghost accepts = { λ _ _ _ _. ⊤ };

    fn accept(&mut self, piece: &[u8]) -> io::Result<usize> {
        self.write(piece)
    }
}
