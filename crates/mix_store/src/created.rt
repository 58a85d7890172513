//! New sources.
ghost use Rattle.std.specs.Prelude.{◌≡◌, ◌<◌, ◌≤◌, ◌+◌, ◌-◌, [], ◌∷◌, ◌++◌, IfOk, OnOk, OnErr, MatchResult, length, take, vec_capacity, vec_len};
ghost use Rattle.mix_model.specs.Holders.{has_name};
ghost use Rattle.mix_model.specs.Rows.{new_row};
ghost use Rattle.mix_model.specs.Values.{new_sound};
ghost use Rattle.mix_model.specs.Edits.{scene_created};
ghost use Rattle.mix_shape.specs.Refused.{RefusedBy, bare_cause};

use crate::sources::Sources;
use mix_base::{ListOf, Name, NoMemory, Serial};
use mix_model::{GraphFault, Kind, Row, Settings, Sound};
use std::alloc::Global;

/// A new source.
#[tactic(auto, unfolding(mix_model::specs::Rows::new_row, mix_model::specs::Values::new_sound))]
pub fn new_row(alloc: Global, serial: Serial, name: Name, kind: Kind, settings: Settings) -> Row
    ensures { result ≡ new_row serial name kind settings new_sound }
{
    Row {
        serial,
        name,
        kind,
        settings,
        sound: Sound {
            volume: 1000,
            muted: false,
            tracks: 63,
            offset: 0,
        },
        since: 0,
        items: ListOf::from_vec(Vec::new(alloc)),
        next_item: 1,
    }
}

/// Takes room for one row more, and for its place in the dying list.
pub fn reserve_row(rows: &mut Vec<Row>, dying: &mut Vec<Serial>) -> Result<(), NoMemory>
    ensures rows { rows.new.items ≡ rows.old.items }
    ensures dying { dying.new.items ≡ dying.old.items }
    ensures room { OnOk result (vec_len rows.new < vec_capacity rows.new) }
    ensures dying_room { OnOk result
        (vec_len dying.new + (vec_len rows.new + 1) ≤ vec_capacity dying.new) }
    ensures keeps { vec_capacity dying.old ≤ vec_capacity dying.new }
{
    rows.reserve(1)?;
    let places = rows.len() + 1;
    dying.reserve(places)?;
    Ok(())
}

/// Takes room for one row more of the registry.
pub fn reserve_source(
    rows: &mut Vec<Row>,
    dying: &mut Vec<Serial>,
    list: &mut Vec<Serial>,
) -> Result<(), NoMemory>
    ensures rows { rows.new.items ≡ rows.old.items }
    ensures dying { dying.new.items ≡ dying.old.items }
    ensures list { list.new.items ≡ list.old.items }
    ensures room { OnOk result (vec_len rows.new < vec_capacity rows.new) }
    ensures dying_room { OnOk result
        (vec_len dying.new + (vec_len rows.new + 1) ≤ vec_capacity dying.new) }
    ensures list_room { OnOk result (vec_len list.new < vec_capacity list.new) }
    ensures keeps { vec_capacity dying.old ≤ vec_capacity dying.new }
{
    list.reserve(1)?;
    reserve_row(rows, dying)?;
    Ok(())
}

impl Sources {
    pub fn has_name(&self, name: &[u8]) -> bool
        ensures { result ≡ has_name self.now name.now }
    {
        self.find_named(name).is_some()
    }

    /// Whether a source that no item shows may have this name, and there is a place for it.
    pub fn check_source(&self, name: &[u8]) -> Result<(), GraphFault>
        ensures refused { RefusedBy (bare_cause self.now name.now) result }
    {
        if self.has_name(name) {
            return Err(GraphFault::Exists);
        }
        if self.rows.len() >= 512 {
            return Err(GraphFault::TooMany { limit: 512 });
        }
        Ok(())
    }

    /// A scene, last in the registry.
    pub fn create_scene(&mut self, alloc: Global, name: Name) -> Result<Serial, NoMemory>
        requires drawn { self.old.next_serial < 4294967295 }
        ensures reply { IfOk result (λ serial. serial ≡ self.old.next_serial) }
        ensures ok { OnOk result (self.new ≡ scene_created name self.old) }
        ensures err { OnErr result (self.new ≡ self.old) }
    {
        let serial = Serial(self.next_serial);
        let Ok(()) = reserve_source(&mut self.rows, &mut self.dying, &mut self.scenes) else {
            drop(name);
            return Err(NoMemory);
        };
        let row = new_row(alloc, serial, name, Kind::Scene, Settings::None);
        self.rows.push_reserved(row);
        self.scenes.push_reserved(serial);
        self.next_serial += 1;
        Ok(serial)
    }
}
