//! New inputs.
ghost use Rattle.std.specs.Prelude.{◌≡◌, ◌<◌, None, Some, IsTrue, IfOk, IfSome, OnOk, OnErr};
ghost use Rattle.mix_model.specs.declared.settings.Settings.{Settings};
ghost use Rattle.mix_model.specs.Rows.{is_input};
ghost use Rattle.mix_model.specs.Lookups.{row_of, is_row};
ghost use Rattle.mix_model.specs.Edits.{input_created};
ghost use Rattle.mix_model.specs.Causes.{item_count};
ghost use Rattle.mix_model.specs.Shape.{GraphShape};
ghost use Rattle.mix_shape.specs.Refused.{RefusedBy};
ghost use Rattle.mix_shape.specs.Created.{input_made, input_cause, wanted_item};

use crate::created::{new_row, reserve_source};
use crate::sources::Sources;
use mix_base::{ItemId, Name, NoMemory, Serial};
use mix_model::{GraphFault, ItemSpec, Kind, Settings};
use std::alloc::Global;

impl Sources {
    /// Whether an input may have this name, and the item that is wanted for it may be there.
    pub fn check_input(
        &self,
        name: &[u8],
        kind: Kind,
        wanted: &Option<(Serial, ItemSpec)>,
    ) -> Result<(), GraphFault>
        requires shape { GraphShape self.now }
        requires input { IsTrue (is_input kind) }
        ensures there { OnOk result
            (IfSome wanted.now (λ w. IsTrue (is_row self.now w.0))) }
        ensures few { OnOk result
            (IfSome wanted.now (λ _. item_count self.now.rows < 2048)) }
        ensures refused { (settings : Settings) → RefusedBy (input_cause self.now name.now wanted.now
            (input_made name.now kind settings wanted.now self.now)) result }
    {
        match wanted {
            None => self.check_source(name),
            Some((parent, _)) => self.check_shown(name, kind, *parent),
        }
    }

    /// An input, last in the registry, which no item shows.
    fn create_hidden_input(
        &mut self,
        alloc: Global,
        name: Name,
        kind: Kind,
        settings: Settings,
    ) -> Result<Serial, NoMemory>
        requires drawn { self.old.next_serial < 4294967295 }
        ensures reply { IfOk result (λ serial. serial ≡ self.old.next_serial) }
        ensures ok { OnOk result (self.new ≡ input_created name kind settings self.old) }
        ensures err { OnErr result (self.new ≡ self.old) }
    {
        let serial = Serial(self.next_serial);
        let Ok(()) = reserve_source(&mut self.rows, &mut self.dying, &mut self.inputs) else {
            drop(name);
            drop(settings);
            return Err(NoMemory);
        };
        let row = new_row(alloc, serial, name, kind, settings);
        self.rows.push_reserved(row);
        self.inputs.push_reserved(serial);
        self.next_serial += 1;
        Ok(serial)
    }

    /// An input, with an item that shows it where one is wanted.
    pub fn create_input(
        &mut self,
        alloc: Global,
        name: Name,
        kind: Kind,
        settings: Settings,
        wanted: Option<(Serial, ItemSpec)>,
    ) -> Result<(Serial, Option<ItemId>), NoMemory>
        requires input { IsTrue (is_input kind) }
        requires there { IfSome wanted (λ w. IsTrue (is_row self.old w.0)) }
        requires few { IfSome wanted (λ _. item_count self.old.rows < 2048) }
        requires drawn { self.old.next_serial < 4294967295 }
        requires item_drawn { IfSome wanted (λ w. IfSome (row_of self.old w.0)
            (λ r. r.next_item < 4294967295)) }
        ensures serial { IfOk result (λ made. made.0 ≡ self.old.next_serial) }
        ensures item { IfOk result (λ made. made.1 ≡ wanted_item self.old wanted) }
        ensures ok { OnOk result
            (self.new ≡ input_made name kind settings wanted self.old) }
        ensures err { OnErr result (self.new ≡ self.old) }
    {
        match wanted {
            None => match self.create_hidden_input(alloc, name, kind, settings) {
                Ok(serial) => Ok((serial, None)),
                Err(fault) => Err(fault),
            },
            Some((parent, spec)) => {
                match self.create_shown_input(alloc, name, kind, settings, parent, &spec) {
                    Ok((serial, item)) => Ok((serial, Some(item))),
                    Err(fault) => Err(fault),
                }
            }
        }
    }
}
