//! A sink over a file. Trusted edge: no contract says which bytes a file holds.
ghost use Rattle.std.specs.Prelude.{⊤};

use crate::{DeviceSink, OutDevice};
use std::fs::File;
use std::io::{self, Write};

/// A sink over an open file.
pub type FileSink = DeviceSink<File>;

impl OutDevice for File {
    ghost accepts = { λ _ _ _ _. ⊤ };

    fn accept(&mut self, piece: &[u8]) -> io::Result<usize> {
        self.write(piece)
    }
}
