//! BroadcastCustomEvent.
ghost use Rattle.std.specs.Prelude.{◌≡◌, []};
ghost use Rattle.mix_model.specs.WholeShape.{StudioShape};
ghost use Rattle.mix_requests.specs.Outcomes.{DoesLast};
ghost use Rattle.mix_requests.specs.Ready.{IsReady};
ghost use Rattle.mix_req_outputs.specs.BroadcastCustomEvent.{broadcast_custom_event};

use mix_base::Json;
use mix_json::need_kept;
use mix_model::{Body, Event, Notes};
use mix_requests::{Caller, Events, Refused, needed_fields};
use mix_studio::Studio;
use std::alloc::Global;

/// Everybody who wants it is told an event with the data that is given.
#[tactic(auto, unfolding(crate::specs::BroadcastCustomEvent::broadcast_custom_event))]
pub fn broadcast_custom_event(
    alloc: Global,
    studio: &mut Studio,
    notes: &mut Notes,
    caller: Caller,
    body: &Body,
    events: &mut Events,
) -> Result<Option<Json>, Refused>
    requires ready { IsReady studio.old notes.old }
    requires empty { events.old ≡ [] }
    ensures does { DoesLast result studio.old studio.new notes.old notes.new events.new
        (broadcast_custom_event studio.old.present notes.old caller body.now) }
    ensures shape { StudioShape studio.new.present }
{
    let _ = caller;
    let fields = needed_fields(body)?;
    let kept = need_kept(fields, "eventData")?;
    events.tell(Event::CustomEvent {
        fields: kept.copy(alloc)?,
    })?;
    Ok(None)
}
