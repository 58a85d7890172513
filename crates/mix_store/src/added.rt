//! New items.
ghost use Rattle.std.specs.Prelude.{◌≡◌, ◌<◌, ◌-◌, IfOk, OnOk, OnErr, length, take, slice_set};
ghost use Rattle.std.specs.Prelude.{slice_index_or};
ghost use Rattle.std.specs.List.{HoldsAt};
ghost use Rattle.mix_model.specs.declared.row.Row.{Row};
ghost use Rattle.mix_model.specs.Rows.{has_items};
ghost use Rattle.mix_model.specs.Lookups.{row_passes, row_of, is_row};
ghost use Rattle.mix_model.specs.Walks.{is_chained};
ghost use Rattle.mix_model.specs.Causes.{item_early, item_late, item_cause, copy_early, copy_cause};
ghost use Rattle.mix_model.specs.Edits.{item_added, item_duplicated};
ghost use Rattle.std.specs.Prelude.{IfSome, IsTrue};
ghost use Rattle.mix_model.specs.Items.{new_item, with_item, spec_of};
ghost use Rattle.mix_model.specs.Shape.{GraphShape};
ghost use Rattle.mix_shape.specs.Refused.{RefusedBy};
ghost use Rattle.mix_store.specs.Searched.{with_item_on};
ghost use Rattle.mix_model.specs.declared.item.ItemSpec.{ItemSpec};
ghost use Rattle.mix_model.specs.Lookups.{item_at};
ghost use Rattle.mix_model.specs.Causes.{item_count};
ghost use Rattle.std.specs.Prelude.{Some};

use crate::refused::{are_tops, late_cause};
use crate::row_edit::items_taken;
use crate::search::{chains_to, has_items, place_of};
use crate::sources::Sources;
use mix_base::{ItemId, ListOf, NoMemory, Serial};
use mix_model::{GraphFault, Item, ItemSpec, Row};
use mix_shape::NewItem;
use std::alloc::Global;

#[tactic(auto, unfolding(mix_model::specs::Items::new_item))]
fn new_item(id: ItemId, child: Serial, spec: &ItemSpec) -> Item
    ensures { result ≡ new_item id child spec.now }
{
    Item {
        id,
        child,
        enabled: spec.enabled,
        locked: spec.locked,
        place: spec.place,
        blend: spec.blend,
    }
}

#[tactic(auto, unfolding(mix_model::specs::Items::spec_of))]
pub fn spec_of(item: &Item) -> ItemSpec
    ensures { result ≡ spec_of item.now }
{
    ItemSpec {
        enabled: item.enabled,
        locked: item.locked,
        place: item.place,
        blend: item.blend,
    }
}

/// Puts an item on top of a row.
#[tactic(auto, unfolding(mix_model::specs::Items::with_item))]
fn push_item(
    alloc: Global,
    row: &mut Row,
    child: Serial,
    spec: &ItemSpec,
) -> Result<ItemId, NoMemory>
    requires drawn { row.old.next_item < 4294967295 }
    ensures reply { IfOk result (λ id. id ≡ row.old.next_item) }
    ensures ok { OnOk result (row.new ≡ with_item child spec.now row.old) }
    ensures err { OnErr result (row.new ≡ row.old) }
{
    let id = ItemId(row.next_item);
    let mut items = items_taken(alloc, row);
    match items.push(new_item(id, child, spec)) {
        Ok(()) => {
            row.items = ListOf::from_vec(items);
            row.next_item += 1;
            Ok(id)
        }
        Err(_) => {
            row.items = ListOf::from_vec(items);
            Err(NoMemory)
        }
    }
}

/// Puts an item on top of the row at an index.
pub fn push_item_at(
    alloc: Global,
    rows: &mut Vec<Row>,
    at: usize,
    child: Serial,
    spec: &ItemSpec,
) -> Result<ItemId, NoMemory>
    requires within { at < length rows.old.items }
    requires drawn { HoldsAt (λ r. r.next_item < 4294967295) rows.old.items at }
    ensures reply { IfOk result (λ id. HoldsAt (λ r. id ≡ r.next_item) rows.old.items at) }
    ensures ok { OnOk result ((d : Row) →
        rows.new.items ≡ with_item_on rows.old.items at child spec.now d) }
    ensures err { OnErr result (rows.new.items ≡ rows.old.items) }
{
    let row = &mut rows[at];
    push_item(alloc, row, child, spec)
}

impl Sources {
    /// Why an item is refused before any row is looked at as it would be.
    #[tactic(auto, unfolding(mix_model::specs::Causes::item_early))]
    fn item_early(&self, parent: Serial, child: Serial) -> Option<GraphFault>
        ensures { result ≡ item_early self.now parent child }
    {
        if !self.is_named(parent) || !self.is_named(child) {
            return Some(GraphFault::NotFound);
        }
        if !self.is_parent(parent) {
            return Some(GraphFault::WrongKind);
        }
        None
    }

    /// Whether the row of this serial is a scene or group.
    pub fn is_parent(&self, serial: Serial) -> bool
        ensures { result ≡ row_passes self.now (λ r. has_items r.kind) serial }
    {
        match self.row(serial) {
            Some(row) => has_items(row.kind),
            None => false,
        }
    }

    /// Whether a chain of items leads from one row to the other, or they are one.
    fn is_chained(&self, from: Serial, to: Serial) -> bool
        ensures { result ≡ is_chained self.now from to }
    {
        chains_to(self.rows.as_slice(), 17, from, to)
    }

    /// Whether an item may show the child: it makes no circle, and no row gets too deep or too heavy.
    fn check_child(&self, parent: Serial, child: Serial) -> Result<(), GraphFault>
        requires shape { GraphShape self.now }
        requires there { IsTrue (is_row self.now parent) }
        ensures few { OnOk result (item_count self.now.rows < 2048) }
        ensures refused { (spec : ItemSpec) → RefusedBy (item_late self.now parent child
            (item_added parent child spec self.now)) result }
    {
        if self.is_chained(child, parent) {
            return Err(GraphFault::Cycle);
        }
        let new = NewItem {
            parent,
            child,
            group: false,
        };
        let rows = self.rows.as_slice();
        let near = are_tops(rows, parent);
        match late_cause(rows, &new, rows.len(), near) {
            Some(fault) => Err(fault),
            None => Ok(()),
        }
    }

    /// Whether an item may show the child on top of a scene or group.
    pub fn check_item(&self, parent: Serial, child: Serial) -> Result<(), GraphFault>
        requires shape { GraphShape self.now }
        ensures there { OnOk result (IsTrue (is_row self.now parent)) }
        ensures few { OnOk result (item_count self.now.rows < 2048) }
        ensures refused { (spec : ItemSpec) → RefusedBy (item_cause self.now parent child
            (item_added parent child spec self.now)) result }
    {
        let early = self.item_early(parent, child);
        if let Some(fault) = early {
            return Err(fault);
        }
        self.check_child(parent, child)
    }

    /// Puts an item on top of a row.
    pub fn add_item(
        &mut self,
        alloc: Global,
        parent: Serial,
        child: Serial,
        spec: &ItemSpec,
    ) -> Result<ItemId, NoMemory>
        requires there { IsTrue (is_row self.old parent) }
        requires few { item_count self.old.rows < 2048 }
        requires drawn { IfSome (row_of self.old parent) (λ r. r.next_item < 4294967295) }
        ensures reply { IfOk result (λ id. IfSome (row_of self.old parent)
            (λ r. id ≡ r.next_item)) }
        ensures ok { OnOk result (self.new ≡ item_added parent child spec.now self.old) }
        ensures err { OnErr result (self.new ≡ self.old) }
    {
        let Some(at) = place_of(self.rows.as_slice(), parent) else {
            unreachable!()
        };
        push_item_at(alloc, &mut self.rows, at, child, spec)
    }

    /// Why a copy of an item is refused before any row is looked at as it would be.
    #[tactic(auto, unfolding(mix_model::specs::Causes::copy_early))]
    fn copy_early(&self, parent: Serial, id: ItemId, to: Serial) -> Option<GraphFault>
        ensures { result ≡ copy_early self.now parent id to }
    {
        if self.lacks_item(parent, id) || !self.is_named(to) {
            return Some(GraphFault::NotFound);
        }
        if !self.is_parent(to) {
            return Some(GraphFault::WrongKind);
        }
        None
    }

    /// The item that may be copied to the top of a scene or group.
    pub fn check_copy(&self, parent: Serial, id: ItemId, to: Serial) -> Result<Item, GraphFault>
        requires shape { GraphShape self.now }
        ensures item { IfOk result (λ item. item_at self.now parent id ≡ Some item) }
        ensures there { OnOk result (IsTrue (is_row self.now to)) }
        ensures few { OnOk result (item_count self.now.rows < 2048) }
        ensures refused { RefusedBy (copy_cause self.now parent id to
            (item_duplicated parent id to self.now)) result }
    {
        let early = self.copy_early(parent, id, to);
        if let Some(fault) = early {
            return Err(fault);
        }
        let Some(item) = self.item(parent, id).copied() else {
            unreachable!()
        };
        match self.check_child(to, item.child) {
            Err(fault) => Err(fault),
            Ok(()) => Ok(item),
        }
    }
}
