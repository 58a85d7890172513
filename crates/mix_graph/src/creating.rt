//! New groups and inputs of a graph.
ghost use Rattle.std.specs.Prelude.{◌≡◌, ◌<◌, ◌&&◌, IsTrue, IfOk, IfSome, OnOk, OnErr, Some};
ghost use Rattle.mix_model.specs.Rows.{is_input};
ghost use Rattle.mix_model.specs.Lookups.{row_of};
ghost use Rattle.mix_model.specs.Values.{is_place, are_settings};
ghost use Rattle.mix_model.specs.Marks.{edited};
ghost use Rattle.mix_model.specs.Edits.{group_created};
ghost use Rattle.mix_model.specs.Causes.{shown_cause};
ghost use Rattle.mix_shape.specs.Refused.{RefusedBy};
ghost use Rattle.mix_shape.specs.Created.{input_made, input_cause, next_item, wanted_item};

use crate::Graph;
use mix_base::{ItemId, Name, Serial};
use mix_model::{GraphFault, ItemSpec, Kind, Settings};

impl Graph {
    /// A group, with an item on top of its parent that shows it. It isn't in the registry.
    pub fn create_group(
        &mut self,
        name: Name,
        parent: Serial,
        spec: ItemSpec,
    ) -> Result<(Serial, ItemId), GraphFault>
        requires place { IsTrue (is_place spec.place) }
        requires drawn { self.old.present.next_serial < 4294967295 }
        requires item_drawn { IfSome (row_of self.old.present parent)
            (λ r. r.next_item < 4294967295) }
        ensures serial { IfOk result (λ made. made.0 ≡ self.old.present.next_serial) }
        ensures item { IfOk result (λ made. next_item self.old.present parent ≡ Some made.1) }
        ensures ok { OnOk result (self.new ≡ edited (group_created name parent spec) self.old) }
        ensures err { OnErr result (self.new ≡ self.old) }
        ensures refused { RefusedBy (shown_cause self.old.present name parent
            (group_created name parent spec self.old.present)) result }
    {
        if let Err(fault) = self.sources.check_shown(name.bytes(), Kind::Group, parent) {
            return Err(fault);
        }
        let Ok(()) = self.tally.grow() else {
            return Err(GraphFault::NoMemory);
        };
        match self.sources.create_group(self.alloc, name, parent, &spec) {
            Err(_) => {
                self.tally.cut(self.sources.rows().len());
                Err(GraphFault::NoMemory)
            }
            Ok(made) => {
                self.tally.settle_living(&mut self.sources);
                Ok(made)
            }
        }
    }

    /// An input, last in the registry, and an item on top of a scene or group where one is wanted.
    pub fn create_input(
        &mut self,
        name: Name,
        kind: Kind,
        settings: Settings,
        parent: Option<(Serial, ItemSpec)>,
    ) -> Result<(Serial, Option<ItemId>), GraphFault>
        requires input { IsTrue (is_input kind && are_settings kind settings) }
        requires place { IfSome parent (λ wanted. IsTrue (is_place wanted.1.place)) }
        requires drawn { self.old.present.next_serial < 4294967295 }
        requires item_drawn { IfSome parent (λ wanted. IfSome
            (row_of self.old.present wanted.0) (λ r. r.next_item < 4294967295)) }
        ensures serial { IfOk result (λ made. made.0 ≡ self.old.present.next_serial) }
        ensures item { IfOk result (λ made. made.1 ≡ wanted_item self.old.present parent) }
        ensures ok { OnOk result
            (self.new ≡ edited (input_made name kind settings parent) self.old) }
        ensures err { OnErr result (self.new ≡ self.old) }
        ensures refused { RefusedBy (input_cause self.old.present name parent
            (input_made name kind settings parent self.old.present)) result }
    {
        if let Err(fault) = self.sources.check_input(name.bytes(), kind, &parent) {
            drop(name);
            drop(settings);
            return Err(fault);
        }
        let Ok(()) = self.tally.grow() else {
            drop(name);
            drop(settings);
            return Err(GraphFault::NoMemory);
        };
        match self
            .sources
            .create_input(self.alloc, name, kind, settings, parent)
        {
            Err(_) => {
                self.tally.cut(self.sources.rows().len());
                Err(GraphFault::NoMemory)
            }
            Ok(made) => {
                self.tally.settle_living(&mut self.sources);
                Ok(made)
            }
        }
    }
}
