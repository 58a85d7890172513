//! What is done about a request on transitions, studio mode, recording, or the mixer itself.
ghost use Rattle.std.specs.Prelude.{◌≡◌, []};
ghost use Rattle.mix_model.specs.WholeShape.{StudioShape};
ghost use Rattle.mix_requests.specs.Outcomes.{DoesLine};
ghost use Rattle.mix_requests.specs.Ready.{IsReady};
ghost use Rattle.mix_req_outputs.specs.Outputs.{most_events, output_line, sleep_line};

use crate::broadcasting::broadcast_custom_event;
use mix_base::Json;
use mix_model::{Body, Notes};
use mix_requests::{Caller, Events, Mode, OutputRequest, Refused};
use mix_studio::Studio;
use std::alloc::Global;

/// Does a request on transitions, studio mode, recording or the mixer itself, and nothing where it isn't
/// built. What it tells comes to `events`, which is empty before; where it is refused these don't count.
pub fn answer(
    alloc: Global,
    studio: &mut Studio,
    notes: &mut Notes,
    caller: Caller,
    request: OutputRequest,
    body: &Body,
    events: &mut Events,
) -> Option<Result<Option<Json>, Refused>>
    requires ready { IsReady studio.old notes.old }
    requires empty { events.old ≡ [] }
    ensures does { DoesLine result studio.old studio.new notes.old notes.new events.new
        (output_line studio.old.present notes.old caller body.now request) }
    ensures shape { StudioShape studio.new.present }
{
    match request {
        OutputRequest::BroadcastCustomEvent => Some(broadcast_custom_event(
            alloc, studio, notes, caller, body, events,
        )),
        OutputRequest::Sleep => match caller.mode {
            Mode::Single => Some(Err(Refused::Status(206))),
            Mode::Realtime | Mode::Frame => None,
        },
        OutputRequest::CallVendorRequest
        | OutputRequest::GetCurrentSceneTransition
        | OutputRequest::GetRecordStatus
        | OutputRequest::GetSceneTransitionList
        | OutputRequest::GetStudioModeEnabled
        | OutputRequest::GetVersion
        | OutputRequest::PauseRecord
        | OutputRequest::ResumeRecord
        | OutputRequest::SetCurrentSceneTransition
        | OutputRequest::SetCurrentSceneTransitionDuration
        | OutputRequest::SetStudioModeEnabled
        | OutputRequest::StartRecord
        | OutputRequest::StopRecord
        | OutputRequest::ToggleRecord
        | OutputRequest::TriggerStudioModeTransition => None,
    }
}

/// The most events of a request of this type, those of the settling aside.
pub fn most_events(request: OutputRequest) -> u32
    ensures value { result ≡ most_events request }
{
    match request {
        OutputRequest::BroadcastCustomEvent => 1,
        _ => 0,
    }
}
