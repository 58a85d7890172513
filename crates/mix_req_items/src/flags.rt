//! SetSceneItemEnabled and SetSceneItemLocked.
ghost use Rattle.std.specs.Prelude.{◌≡◌, ◌∷◌, ◌++◌, ◌<◌, ◌^◌, [], IsTrue, OnOk, Ok, is_some, true};
ghost use Rattle.mix_model.specs.Lookups.{row_of};
ghost use Rattle.mix_model.specs.Sets.{agree};
ghost use Rattle.mix_model.specs.WholeShape.{StudioShape};
ghost use Rattle.mix_requests.specs.Named.{name_at};
ghost use Rattle.mix_requests.specs.Outcomes.{DoesLast};
ghost use Rattle.mix_requests.specs.Ready.{IsReady};
ghost use Rattle.mix_req_items.specs.Changes.{may_be};
ghost use Rattle.mix_req_items.specs.Finding.{IsFound};
ghost use Rattle.mix_req_items.specs.Flags.{flag_change, flag_event, flag_key, flag_of, flagged};
ghost use Rattle.mix_req_items.specs.Flags.{set_flag};

use crate::changing::{Change, change_item};
use crate::finding::item_named;
use crate::found::Found;
use crate::numbers::item_id;
use mix_base::{Json, NoMemory};
use mix_graph::Graph;
use mix_json::need_bool;
use mix_model::{Body, Event, Notes};
use mix_requests::{Caller, Events, Refused, name_of, needed_fields, sought_name};
use mix_studio::Studio;
use std::alloc::Global;

/// What may be so of an item or not.
#[derive(Clone, Copy)]
pub enum Flag {
    Enabled,
    Locked,
}

/// An item is seen or not, or is locked or not.
#[tactic(auto, unfolding(crate::specs::Flags::set_flag))]
pub fn set_flag(
    alloc: Global,
    flag: Flag,
    studio: &mut Studio,
    notes: &mut Notes,
    caller: Caller,
    body: &Body,
    events: &mut Events,
) -> Result<Option<Json>, Refused>
    requires ready { IsReady studio.old notes.old }
    requires empty { events.old ≡ [] }
    ensures does { DoesLast result studio.old studio.new notes.old notes.new events.new
        (set_flag flag studio.old.present notes.old caller body.now) }
    ensures shape { StudioShape studio.new.present }
{
    let _ = (alloc, caller);
    let fields = needed_fields(body)?;
    let name = sought_name(fields, "sceneName")?;
    let id = item_id(fields)?;
    let value = need_bool(fields, flag_key(flag))?;
    let found = item_named(studio, name, id)?;
    set_found(flag, studio, notes, &found, value, events)
}

/// An item that was found is told and changed, where it doesn't stand so already.
fn set_found(
    flag: Flag,
    studio: &mut Studio,
    notes: &mut Notes,
    found: &Found,
    value: bool,
    events: &mut Events,
) -> Result<Option<Json>, Refused>
    requires ready { IsReady studio.old notes.old }
    requires empty { events.old ≡ [] }
    requires found { IsFound studio.old.present.graph found.now }
    ensures does { DoesLast result studio.old studio.new notes.old notes.new events.new
        (Ok (flagged flag studio.old.present notes.old found.now value)) }
    ensures shape { StudioShape studio.new.present }
{
    if stands(flag, found, value) {
        return Ok(None);
    }
    tell_flag(events, studio.graph(), flag, found, value)?;
    change_item(studio, found, flag_change(flag, value));
    Ok(None)
}

/// It is told.
fn tell_flag(
    events: &mut Events,
    graph: &Graph,
    flag: Flag,
    found: &Found,
    value: bool,
) -> Result<(), NoMemory>
    requires there { is_some (row_of graph.now.present found.now.holder) ≡ true }
    requires short { found.now.holder < 2 ^ 48 }
    ensures told { OnOk result (events.new ≡ events.old ++ flag_event flag value found.now.item.id
        (name_at graph.now.present found.now.holder) found.now.holder ∷ []) }
{
    let item = found.item.id;
    let scene = name_of(graph, found.holder);
    let serial = found.holder;
    match flag {
        Flag::Enabled => events.tell(Event::SceneItemEnableStateChanged {
            enabled: value,
            item,
            scene,
            serial,
        }),
        Flag::Locked => events.tell(Event::SceneItemLockStateChanged {
            item,
            locked: value,
            scene,
            serial,
        }),
    }
}

/// The field of the request.
fn flag_key(flag: Flag) -> &'static str
    ensures value { result.now ≡ flag_key flag }
{
    match flag {
        Flag::Enabled => "sceneItemEnabled",
        Flag::Locked => "sceneItemLocked",
    }
}

/// What becomes of the item.
fn flag_change(flag: Flag, value: bool) -> Change
    ensures value { result ≡ flag_change flag value }
    ensures may { IsTrue (may_be result) }
{
    match flag {
        Flag::Enabled => Change::Enabled(value),
        Flag::Locked => Change::Locked(value),
    }
}

/// Whether it stands so already.
fn stands(flag: Flag, found: &Found, value: bool) -> bool
    ensures value { result ≡ agree value (flag_of flag found.now.item) }
{
    flag_of(flag, found) == value
}

/// How it stands.
fn flag_of(flag: Flag, found: &Found) -> bool
    ensures value { result ≡ flag_of flag found.now.item }
{
    match flag {
        Flag::Enabled => found.item.enabled,
        Flag::Locked => found.item.locked,
    }
}
