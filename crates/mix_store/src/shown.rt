//! New sources with an item of their parent that shows them.
ghost use Rattle.std.specs.Prelude.{◌≡◌, ◌<◌, [], ◌∷◌, ◌++◌, IfOk, IfSome, OnOk, OnErr, length};
ghost use Rattle.std.specs.Prelude.{vec_capacity, vec_len, Some, IsTrue};
ghost use Rattle.mix_model.specs.Rows.{is_input};
ghost use Rattle.std.specs.List.{HoldsAt};
ghost use Rattle.mix_model.specs.declared.row.Row.{Row};
ghost use Rattle.mix_model.specs.Lookups.{row_of};
ghost use Rattle.mix_model.specs.Edits.{group_created, shown_input_created};
ghost use Rattle.mix_model.specs.Causes.{shown_early, shown_cause};
ghost use Rattle.mix_shape.specs.Refused.{RefusedBy};
ghost use Rattle.mix_shape.specs.Created.{shown_added, listed, next_item};
ghost use Rattle.mix_store.specs.Searched.{with_item_on};
ghost use Rattle.std.specs.Prelude.{◌-◌, take};
ghost use Rattle.mix_model.specs.declared.item.ItemSpec.{ItemSpec};
ghost use Rattle.mix_model.specs.declared.settings.Settings.{Settings};
ghost use Rattle.mix_model.specs.Lookups.{is_row};
ghost use Rattle.mix_model.specs.Causes.{item_count};

use crate::added::push_item_at;
use crate::created::{new_row, reserve_source};
use crate::refused::late_cause;
use crate::search::{has_items, place_of};
use crate::sources::Sources;
use mix_base::{ItemId, Name, NoMemory, Serial};
use mix_model::{GraphFault, ItemSpec, Kind, Row, Settings};
use mix_shape::NewItem;
use std::alloc::Global;

/// Takes the last row away.
fn drop_last(rows: &mut Vec<Row>)
    ensures rows { rows.new.items ≡ take (vec_len rows.old - 1) rows.old.items }
{
    drop(rows.pop());
}

/// Puts a row at the end, and an item that shows it on top of the row at an index.
fn push_shown(
    alloc: Global,
    rows: &mut Vec<Row>,
    at: usize,
    row: Row,
    spec: &ItemSpec,
) -> Result<ItemId, NoMemory>
    requires room { vec_len rows.old < vec_capacity rows.old }
    requires within { at < length rows.old.items }
    requires drawn { HoldsAt (λ r. r.next_item < 4294967295) rows.old.items at }
    ensures reply { IfOk result (λ id. HoldsAt (λ r. id ≡ r.next_item) rows.old.items at) }
    ensures ok { OnOk result ((d : Row) → rows.new.items
        ≡ with_item_on (rows.old.items ++ row ∷ []) at row.serial spec.now d) }
    ensures err { OnErr result (rows.new.items ≡ rows.old.items) }
{
    let serial = row.serial;
    rows.push_reserved(row);
    match push_item_at(alloc, rows, at, serial, spec) {
        Ok(id) => Ok(id),
        Err(_) => {
            drop_last(rows);
            Err(NoMemory)
        }
    }
}

/// Puts an input at the end of the list, and a group nowhere.
fn list_input(inputs: &mut Vec<Serial>, kind: Kind, serial: Serial)
    requires room { vec_len inputs.old < vec_capacity inputs.old }
    ensures { inputs.new.items ≡ listed kind serial inputs.old.items }
{
    if !has_items(kind) {
        inputs.push_reserved(serial);
    }
}

impl Sources {
    /// Why a source that an item shows is refused before any row is looked at as it would be.
    #[tactic(auto, unfolding(mix_model::specs::Causes::shown_early))]
    fn shown_early(&self, name: &[u8], parent: Serial) -> Option<GraphFault>
        ensures { result ≡ shown_early self.now name.now parent }
    {
        if !self.is_named(parent) {
            return Some(GraphFault::NotFound);
        }
        if !self.is_parent(parent) {
            return Some(GraphFault::WrongKind);
        }
        if self.has_name(name) {
            return Some(GraphFault::Exists);
        }
        None
    }

    /// Whether a group or an input may have this name, and an item on top of the parent may show it.
    pub fn check_shown(&self, name: &[u8], kind: Kind, parent: Serial) -> Result<(), GraphFault>
        ensures there { OnOk result (IsTrue (is_row self.now parent)) }
        ensures few { OnOk result (item_count self.now.rows < 2048) }
        ensures refused { (settings : Settings) (spec : ItemSpec) → RefusedBy (shown_cause
            self.now name.now parent (shown_added name.now kind settings parent spec self.now)) result }
    {
        let early = self.shown_early(name, parent);
        if let Some(fault) = early {
            return Err(fault);
        }
        let new = NewItem {
            parent,
            child: Serial(self.next_serial),
            group: has_items(kind),
        };
        let rows = self.rows.as_slice();
        match late_cause(rows, &new, rows.len() + 1, false) {
            Some(fault) => Err(fault),
            None => Ok(()),
        }
    }

    /// A group or an input with an item on top of its parent.
    pub fn add_shown(
        &mut self,
        alloc: Global,
        name: Name,
        kind: Kind,
        settings: Settings,
        parent: Serial,
        spec: &ItemSpec,
    ) -> Result<(Serial, ItemId), NoMemory>
        requires there { IsTrue (is_row self.old parent) }
        requires few { item_count self.old.rows < 2048 }
        requires drawn { self.old.next_serial < 4294967295 }
        requires item_drawn { IfSome (row_of self.old parent) (λ r. r.next_item < 4294967295) }
        ensures serial { IfOk result (λ made. made.0 ≡ self.old.next_serial) }
        ensures item { IfOk result (λ made. next_item self.old parent ≡ Some made.1) }
        ensures ok { OnOk result
            (self.new ≡ shown_added name kind settings parent spec.now self.old) }
        ensures err { OnErr result (self.new ≡ self.old) }
    {
        let Some(at) = place_of(self.rows.as_slice(), parent) else {
            unreachable!()
        };
        let serial = Serial(self.next_serial);
        let Ok(()) = reserve_source(&mut self.rows, &mut self.dying, &mut self.inputs) else {
            drop(name);
            drop(settings);
            return Err(NoMemory);
        };
        let row = new_row(alloc, serial, name, kind, settings);
        match push_shown(alloc, &mut self.rows, at, row, spec) {
            Err(fault) => Err(fault),
            Ok(id) => {
                list_input(&mut self.inputs, kind, serial);
                self.next_serial += 1;
                Ok((serial, id))
            }
        }
    }

    /// A group, with an item of its parent that shows it.
    #[tactic(auto, unfolding(mix_shape::specs::Created::shown_added, mix_model::specs::Edits::group_created, mix_model::specs::Edits::item_added))]
    pub fn create_group(
        &mut self,
        alloc: Global,
        name: Name,
        parent: Serial,
        spec: &ItemSpec,
    ) -> Result<(Serial, ItemId), NoMemory>
        requires there { IsTrue (is_row self.old parent) }
        requires few { item_count self.old.rows < 2048 }
        requires drawn { self.old.next_serial < 4294967295 }
        requires item_drawn { IfSome (row_of self.old parent) (λ r. r.next_item < 4294967295) }
        ensures serial { IfOk result (λ made. made.0 ≡ self.old.next_serial) }
        ensures item { IfOk result (λ made. next_item self.old parent ≡ Some made.1) }
        ensures ok { OnOk result (self.new ≡ group_created name parent spec.now self.old) }
        ensures err { OnErr result (self.new ≡ self.old) }
    {
        self.add_shown(alloc, name, Kind::Group, Settings::None, parent, spec)
    }

    /// An input, last in the registry, with an item of its parent that shows it.
    #[tactic(auto, using(crate::proofs::CheckLemmas::shown_input))]
    pub fn create_shown_input(
        &mut self,
        alloc: Global,
        name: Name,
        kind: Kind,
        settings: Settings,
        parent: Serial,
        spec: &ItemSpec,
    ) -> Result<(Serial, ItemId), NoMemory>
        requires input { IsTrue (is_input kind) }
        requires there { IsTrue (is_row self.old parent) }
        requires few { item_count self.old.rows < 2048 }
        requires drawn { self.old.next_serial < 4294967295 }
        requires item_drawn { IfSome (row_of self.old parent) (λ r. r.next_item < 4294967295) }
        ensures serial { IfOk result (λ made. made.0 ≡ self.old.next_serial) }
        ensures item { IfOk result (λ made. next_item self.old parent ≡ Some made.1) }
        ensures ok { OnOk result (self.new
            ≡ shown_input_created name kind settings parent spec.now self.old) }
        ensures err { OnErr result (self.new ≡ self.old) }
    {
        self.add_shown(alloc, name, kind, settings, parent, spec)
    }
}
