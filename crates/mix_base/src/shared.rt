//! Bytes that many may hold at once, without a copy.
ghost use Rattle.std.specs.Prelude.{◌≡◌, IfOk};

use crate::NoMemory;
use std::alloc::Global;
use std::marker::Model;
use std::sync::ArcSlice;

/// Bytes that many may hold at once, without a copy.
#[derive(Drop)]
pub struct SharedBytes {
    bytes: ArcSlice<u8>,
}

impl Model for SharedBytes {
    ghost use Rattle.std.specs.Prelude.{ℕ, List};
    ghost use Rattle.std.specs.Arc.{arc_slice_items};

    ghost Value = { List ℕ };

    ghost view = { λ shared. arc_slice_items shared.bytes };
}

impl SharedBytes {
    pub fn read(alloc: Global, bytes: &[u8]) -> Result<SharedBytes, NoMemory>
        ensures value { IfOk result (λ shared. shared ≡ bytes.now) }
    {
        let bytes = ArcSlice::from_vec(Vec::from_slice(alloc, bytes)?)?;
        Ok(SharedBytes { bytes })
    }

    /// The same bytes once more: none is copied.
    pub fn share(&self) -> Result<SharedBytes, NoMemory>
        ensures value { IfOk result (λ shared. shared ≡ self.now) }
    {
        let bytes = self.bytes.clone()?;
        Ok(SharedBytes { bytes })
    }

    pub fn bytes(&self) -> &[u8]
        ensures value { result.now ≡ self.now }
    {
        self.bytes.as_slice()
    }
}
