//! New items of a graph.
ghost use Rattle.std.specs.Prelude.{◌≡◌, ◌<◌, IsTrue, IfOk, IfSome, OnOk, OnErr};
ghost use Rattle.mix_model.specs.Lookups.{row_of};
ghost use Rattle.mix_model.specs.Values.{is_place};
ghost use Rattle.mix_model.specs.Marks.{edited};
ghost use Rattle.mix_model.specs.Causes.{item_cause, copy_cause};
ghost use Rattle.mix_model.specs.Edits.{item_added, item_duplicated};
ghost use Rattle.mix_shape.specs.Refused.{RefusedBy};

use crate::Graph;
use mix_base::{ItemId, Serial};
use mix_model::{GraphFault, ItemSpec};
use mix_store::spec_of;

impl Graph {
    /// Puts an item on top of a scene or group. It shows the child.
    pub fn add_item(
        &mut self,
        parent: Serial,
        child: Serial,
        spec: ItemSpec,
    ) -> Result<ItemId, GraphFault>
        requires place { IsTrue (is_place spec.place) }
        requires drawn { IfSome (row_of self.old.present parent)
            (λ r. r.next_item < 4294967295) }
        ensures reply { IfOk result (λ id. IfSome (row_of self.old.present parent)
            (λ r. id ≡ r.next_item)) }
        ensures ok { OnOk result (self.new ≡ edited (item_added parent child spec) self.old) }
        ensures err { OnErr result (self.new ≡ self.old) }
        ensures refused { RefusedBy (item_cause self.old.present parent child
            (item_added parent child spec self.old.present)) result }
    {
        if let Err(fault) = self.sources.check_item(parent, child) {
            return Err(fault);
        }
        match self.sources.add_item(self.alloc, parent, child, &spec) {
            Err(_) => Err(GraphFault::NoMemory),
            Ok(id) => {
                self.tally.settle_living(&mut self.sources);
                Ok(id)
            }
        }
    }

    /// Puts a copy of an item on top of a scene or group, under an id of its own.
    pub fn duplicate_item(
        &mut self,
        parent: Serial,
        item: ItemId,
        to: Serial,
    ) -> Result<ItemId, GraphFault>
        requires drawn { IfSome (row_of self.old.present to) (λ r. r.next_item < 4294967295) }
        ensures reply { IfOk result (λ copy. IfSome (row_of self.old.present to)
            (λ r. copy ≡ r.next_item)) }
        ensures ok { OnOk result (self.new ≡ edited (item_duplicated parent item to) self.old) }
        ensures err { OnErr result (self.new ≡ self.old) }
        ensures refused { RefusedBy (copy_cause self.old.present parent item to
            (item_duplicated parent item to self.old.present)) result }
    {
        let copied = match self.sources.check_copy(parent, item, to) {
            Err(fault) => return Err(fault),
            Ok(copied) => copied,
        };
        match self
            .sources
            .add_item(self.alloc, to, copied.child, &spec_of(&copied))
        {
            Err(_) => Err(GraphFault::NoMemory),
            Ok(copy) => {
                self.tally.settle_living(&mut self.sources);
                Ok(copy)
            }
        }
    }
}
