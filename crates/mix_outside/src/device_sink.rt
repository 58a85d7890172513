//! A sink over a device of the system.
ghost use Rattle.std.specs.Prelude.{◌≡◌, ◌≢◌, ◌≤◌, []};
ghost use Rattle.mix_outside.specs.Faults.{Rose};
ghost use Rattle.mix_outside.specs.Bytes.{Puts};
ghost use Rattle.mix_outside.specs.Devices.{Writes};
ghost use Rattle.mix_outside.specs.Memory.{faults_after};

use crate::devices::{put_of, write_whole};
use crate::{OutDevice, Put, Sink};

/// A sink over a device of the system. Nothing waits in a buffer: what was written is the system's.
/// It tells no bytes.
#[derive(Drop)]
pub struct DeviceSink<D> {
    device: D,
    faults: u64,
}

impl<D> DeviceSink<D> {
    pub fn new(device: D) -> DeviceSink<D>
        ensures device { result.device ≡ device }
        ensures faults { result.faults ≡ 0 }
    {
        DeviceSink { device, faults: 0 }
    }
}

impl<D: OutDevice> Sink for DeviceSink<D> {
    ghost Tells = { ⊥ };

    ghost held = { λ _. [] };

    ghost faults = { λ sink. sink.faults };

    fn write(&mut self, piece: &[u8]) -> Put
        ensures writes { Writes D.accepts self.old.device piece.now result self.new.device }
        ensures count { self.new.faults ≡ faults_after result self.old.faults }
        ensures bytes { ⊥ → Puts result piece.now [] [] }
        ensures later { self.old.faults ≤ self.new.faults }
        ensures cause { result ≡ Put.Failed → Rose self.old.faults self.new.faults }
        ensures steady { result ≢ Put.Failed → self.new.faults ≡ self.old.faults }
    {
        put_of(write_whole(&mut self.device, piece), &mut self.faults)
    }
}
