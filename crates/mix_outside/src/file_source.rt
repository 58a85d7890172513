//! A source over a file. Trusted edge: no contract says which bytes a file gives.
ghost use Rattle.std.specs.Prelude.{⊤};

use crate::{DeviceSource, InDevice};
use std::fs::File;
use std::io::{self, Read};

/// A source over an open file.
pub type FileSource = DeviceSource<File>;

impl InDevice for File {
    ghost gives = { λ _ _ _ _. ⊤ };

    fn give(&mut self, into: &mut [u8]) -> io::Result<usize> {
        self.read(into)
    }
}
