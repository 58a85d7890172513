//! What is done about a request on items.
ghost use Rattle.std.specs.Prelude.{◌≡◌, []};
ghost use Rattle.mix_model.specs.WholeShape.{StudioShape};
ghost use Rattle.mix_requests.specs.Outcomes.{DoesLine};
ghost use Rattle.mix_requests.specs.Ready.{IsReady};
ghost use Rattle.mix_req_items.specs.Items.{item_line, most_events};

use crate::asking::{Part, get_part};
use crate::blending::set_scene_item_blend_mode;
use crate::creating::create_scene_item;
use crate::duplicating::duplicate_scene_item;
use crate::flags::{Flag, set_flag};
use crate::removing::remove_scene_item;
use mix_base::Json;
use mix_model::{Body, Notes};
use mix_requests::{Caller, Events, ItemRequest, Refused};
use mix_studio::Studio;
use std::alloc::Global;

/// Does a request on items, and nothing where it isn't built. What it tells comes to `events`, which is
/// empty before; where it is refused these don't count.
pub fn answer(
    alloc: Global,
    studio: &mut Studio,
    notes: &mut Notes,
    caller: Caller,
    request: ItemRequest,
    body: &Body,
    events: &mut Events,
) -> Option<Result<Option<Json>, Refused>>
    requires ready { IsReady studio.old notes.old }
    requires empty { events.old ≡ [] }
    ensures does { DoesLine result studio.old studio.new notes.old notes.new events.new
        (item_line studio.old.present notes.old caller body.now request) }
    ensures shape { StudioShape studio.new.present }
{
    match request {
        ItemRequest::CreateSceneItem => {
            Some(create_scene_item(alloc, studio, notes, caller, body, events))
        }
        ItemRequest::DuplicateSceneItem => {
            Some(duplicate_scene_item(alloc, studio, notes, caller, body, events))
        }
        ItemRequest::GetSceneItemBlendMode => Some(get_part(
            alloc,
            Part::BlendMode,
            studio,
            notes,
            caller,
            body,
            events,
        )),
        ItemRequest::GetSceneItemEnabled => Some(get_part(
            alloc,
            Part::Enabled,
            studio,
            notes,
            caller,
            body,
            events,
        )),
        ItemRequest::GetSceneItemIndex => Some(get_part(
            alloc,
            Part::Index,
            studio,
            notes,
            caller,
            body,
            events,
        )),
        ItemRequest::GetSceneItemLocked => Some(get_part(
            alloc,
            Part::Locked,
            studio,
            notes,
            caller,
            body,
            events,
        )),
        ItemRequest::RemoveSceneItem => {
            Some(remove_scene_item(alloc, studio, notes, caller, body, events))
        }
        ItemRequest::SetSceneItemBlendMode => Some(set_scene_item_blend_mode(
            alloc, studio, notes, caller, body, events,
        )),
        ItemRequest::SetSceneItemEnabled => Some(set_flag(
            alloc,
            Flag::Enabled,
            studio,
            notes,
            caller,
            body,
            events,
        )),
        ItemRequest::SetSceneItemLocked => Some(set_flag(
            alloc,
            Flag::Locked,
            studio,
            notes,
            caller,
            body,
            events,
        )),
        ItemRequest::GetGroupSceneItemList
        | ItemRequest::GetSceneItemId
        | ItemRequest::GetSceneItemList
        | ItemRequest::GetSceneItemTransform
        | ItemRequest::SetSceneItemIndex
        | ItemRequest::SetSceneItemTransform => None,
    }
}

/// The most events of a request of this type, those of the settling aside.
pub fn most_events(request: ItemRequest) -> u32
    ensures value { result ≡ most_events request }
{
    match request {
        ItemRequest::CreateSceneItem
        | ItemRequest::DuplicateSceneItem
        | ItemRequest::RemoveSceneItem
        | ItemRequest::SetSceneItemEnabled
        | ItemRequest::SetSceneItemLocked => 1,
        _ => 0,
    }
}
