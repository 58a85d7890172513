//! A door in memory, which fails exactly at the calls that it is told.
ghost use Rattle.std.specs.Prelude.{◌≡◌, ◌≢◌, ◌≤◌, ◌+◌, ◌++◌, ◌||◌, [], Ok};
ghost use Rattle.mix_outside.specs.Faults.{Rose};
ghost use Rattle.mix_outside.specs.Doors.{links_in, is_end, waits_in};

use crate::calls::CallCount;
use crate::{Came, Door, MemLink};
use mix_base::{Bytes32, CallList, ListOf, NoMemory};
use std::marker::Model;
use std::vec::IntoIter;

/// Who comes through a door in memory.
#[derive(Drop)]
pub enum Comer {
    Link { link: MemLink, challenge: Bytes32 },
    Idle,
}

/// Who comes through a door in memory, in order.
pub type ComerList = ListOf<Comer>;

/// A door in memory. Contracts see who is still to come, whether it ended, the calls, the faults and
/// how often it was idle.
#[derive(Drop)]
pub struct MemDoor {
    comers: IntoIter<Comer>,
    ended: bool,
    calls: CallCount,
    faults: u64,
    idles: u64,
}

impl Model for MemDoor {
    ghost use Rattle.std.specs.Prelude.{◌+◌, ◌<◌, ◌^◌};
    ghost use Rattle.std.specs.Vec.Iter.{into_iter_items, into_iter_len};
    ghost use Rattle.mix_outside.specs.MemoryDoors.{DoorState};

    ghost Value = { DoorState };

    ghost view = { λ door. record {
      left = into_iter_items door.comers;
      ended = door.ended;
      calls = door.calls;
      faults = door.faults;
      idles = door.idles;
    } };

    ghost invariant = { λ door. door.idles + into_iter_len door.comers < 2 ^ 64 };
}

impl MemDoor {
    ghost use Rattle.mix_outside.specs.MemoryDoors.{new_door};

    /// The calls that are to fail are counted from 0.
    pub fn new(comers: ComerList, failing: CallList) -> MemDoor
        ensures value { result ≡ new_door comers failing }
    {
        MemDoor {
            comers: comers.into_vec().into_iter(),
            ended: false,
            calls: CallCount::new(failing),
            faults: 0,
            idles: 0,
        }
    }
}

impl Door for MemDoor {
    ghost use Rattle.mix_outside.specs.MemoryDoors.{came_of, after_next, links_of};

    type L = MemLink;

    ghost Tells = { Unit {0} };

    ghost left = { λ door. links_of door.left };

    ghost ended = { λ door. door.ended };

    ghost faults = { λ door. door.faults };

    ghost idles = { λ door. door.idles };

    /// It takes no memory.
    fn next(&mut self) -> Result<Came<MemLink>, NoMemory>
        ensures value { result ≡ Ok (came_of self.old) }
        ensures state { self.new ≡ after_next (came_of self.old) self.old }
        ensures left { links_of self.old.left ≡ links_in result ++ links_of self.new.left }
        ensures end { result ≡ Ok Came.End → links_of self.new.left ≡ [] }
        ensures ended { self.new.ended ≡ (self.old.ended || is_end result) }
        ensures idle { self.new.idles ≡ self.old.idles + waits_in result }
        ensures later { self.old.faults ≤ self.new.faults }
        ensures cause { result ≡ Ok Came.Failed → Rose self.old.faults self.new.faults }
        ensures steady { result ≢ Ok Came.Failed → self.new.faults ≡ self.old.faults }
    {
        if self.calls.begin() {
            self.faults = self.faults.saturating_add(1);
            return Ok(Came::Failed);
        }
        match self.comers.next() {
            None => {
                self.ended = true;
                Ok(Came::End)
            }
            Some(Comer::Idle) => {
                self.idles += 1;
                Ok(Came::Idle)
            }
            Some(Comer::Link { link, challenge }) => Ok(Came::Link { link, challenge }),
        }
    }
}
