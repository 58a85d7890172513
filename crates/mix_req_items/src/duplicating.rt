//! DuplicateSceneItem.
ghost use Rattle.std.specs.Prelude.{◌≡◌, ◌<◌, [], IfOk, true};
ghost use Rattle.std.specs.Option.{option_copied};
ghost use Rattle.std.specs.Result.{result_map_both};
ghost use Rattle.mix_model.specs.Causes.{copy_cause};
ghost use Rattle.mix_model.specs.Edits.{item_duplicated};
ghost use Rattle.mix_model.specs.Holders.{is_named};
ghost use Rattle.mix_model.specs.WholeShape.{StudioShape};
ghost use Rattle.mix_requests.specs.Outcomes.{DoesLast};
ghost use Rattle.mix_requests.specs.Ready.{IsReady, MayMake};
ghost use Rattle.mix_requests.specs.Refusals.{refused_by};
ghost use Rattle.mix_requests.specs.Sources.{Edits, edited_alone};
ghost use Rattle.mix_req_items.specs.CreateSceneItem.{AreEnds};
ghost use Rattle.mix_req_items.specs.DuplicateSceneItem.{copy_ends, destination, destination_name};
ghost use Rattle.mix_req_items.specs.DuplicateSceneItem.{duplicate_scene_item};
ghost use Rattle.mix_req_items.specs.Finding.{IsFound};

use crate::creating::{Ends, tell_item};
use crate::finding::{holder_sought, item_named};
use crate::found::Found;
use crate::numbers::item_id;
use mix_base::{Json, JsonObj, Serial, Text};
use mix_json::opt_text;
use mix_model::{Body, Notes};
use mix_requests::{Caller, Events, Refused, needed_fields, sought_name};
use mix_studio::Studio;
use std::alloc::Global;

/// A copy of an item, on top of its own or another scene or group.
#[tactic(auto, unfolding(crate::specs::DuplicateSceneItem::duplicate_scene_item))]
pub fn duplicate_scene_item(
    alloc: Global,
    studio: &mut Studio,
    notes: &mut Notes,
    caller: Caller,
    body: &Body,
    events: &mut Events,
) -> Result<Option<Json>, Refused>
    requires ready { IsReady studio.old notes.old }
    requires empty { events.old ≡ [] }
    ensures does { DoesLast result studio.old studio.new notes.old notes.new events.new
        (duplicate_scene_item studio.old.present notes.old caller body.now) }
    ensures shape { StudioShape studio.new.present }
{
    let _ = caller;
    let fields = needed_fields(body)?;
    let name = sought_name(fields, "sceneName")?;
    let id = item_id(fields)?;
    let to_name = destination_name(fields)?;
    let found = item_named(studio, name, id)?;
    let to = destination(studio, &found, to_name)?;
    let ends = copy_ends(&found, to);
    let answer = tell_item(alloc, events, studio, &ends)?;
    match copy_item(studio, &found, to) {
        Ok(()) => Ok(Some(answer)),
        Err(refused) => {
            drop(answer);
            Err(refused)
        }
    }
}

/// The name of another scene or group: 401 and 403.
#[tactic(auto, unfolding(crate::specs::DuplicateSceneItem::destination_name))]
fn destination_name(fields: &JsonObj) -> Result<Option<&Text>, u16>
    ensures value { result_map_both option_copied (λ e. e) result ≡ destination_name fields.now }
{
    match opt_text(fields, "destinationSceneName")? {
        Some(name) if name.bytes().is_empty() => Err(403),
        given => Ok(given),
    }
}

/// Where the copy goes: to the scene or group of the name, or to the item's own: 600 and 602.
fn destination(studio: &Studio, found: &Found, name: Option<&Text>) -> Result<Serial, u16>
    requires found { IsFound studio.now.present.graph found.now }
    ensures value { result
        ≡ destination studio.now.present.graph found.now.holder (option_copied name.entry) }
    ensures named { IfOk result (λ x. is_named studio.now.present.graph x ≡ true) }
{
    match name {
        Some(name) => holder_sought(studio.graph(), name),
        None => Ok(found.holder),
    }
}

/// The copy shows what the item shows.
fn copy_ends(found: &Found, to: Serial) -> Ends
    ensures value { result ≡ copy_ends found.now to }
{
    Ends {
        holder: to,
        child: found.item.child,
    }
}

/// The copy is made, in an action of its own: 700 for a circle or too deep a nesting, 603 where there
/// would be too much.
fn copy_item(studio: &mut Studio, found: &Found, to: Serial) -> Result<(), Refused>
    requires ready { MayMake studio.old }
    ensures edits { Edits result studio.old studio.new
        (refused_by (copy_cause studio.old.present.graph found.now.holder found.now.item.id to
        (item_duplicated found.now.holder found.now.item.id to studio.old.present.graph)))
        (edited_alone (item_duplicated found.now.holder found.now.item.id to) studio.old.present) }
    ensures shape { StudioShape studio.new.present }
{
    let graph = studio.graph_mut();
    let made = graph.duplicate_item(found.holder, found.item.id, to);
    graph.has_shape();
    match made {
        Ok(_) => Ok(()),
        Err(fault) => Err(Refused::from(fault)),
    }
}
