//! A source over a device of the system.
ghost use Rattle.std.specs.Prelude.{◌≡◌, ◌≢◌, ◌<◌, ◌≤◌, [], length};
ghost use Rattle.mix_outside.specs.Faults.{Rose};
ghost use Rattle.mix_outside.specs.Bytes.{IsWithin, Takes};
ghost use Rattle.mix_outside.specs.Devices.{Reads, faults_after_take};

use crate::devices::take_of;
use crate::{InDevice, Source, Take};

/// A source over a device of the system, which ends where the device gives nothing. It tells no
/// bytes.
#[derive(Drop)]
pub struct DeviceSource<D> {
    device: D,
    faults: u64,
}

impl<D> DeviceSource<D> {
    pub fn new(device: D) -> DeviceSource<D>
        ensures device { result.device ≡ device }
        ensures faults { result.faults ≡ 0 }
    {
        DeviceSource { device, faults: 0 }
    }
}

impl<D: InDevice> Source for DeviceSource<D> {
    ghost Tells = { ⊥ };

    ghost left = { λ _. [] };

    ghost faults = { λ source. source.faults };

    fn read(&mut self, into: &mut [u8]) -> Take
        requires room { 0 < length into.old }
        ensures reads { Reads D.gives self.old.device into.new result self.new.device }
        ensures count { self.new.faults ≡ faults_after_take result self.old.faults }
        ensures within { IsWithin result (length into.old) }
        ensures bytes { ⊥ → Takes result into.new [] [] }
        ensures later { self.old.faults ≤ self.new.faults }
        ensures cause { result ≡ Take.Failed → Rose self.old.faults self.new.faults }
        ensures steady { result ≢ Take.Failed → self.new.faults ≡ self.old.faults }
    {
        take_of(self.device.give(into), &mut self.faults)
    }
}
