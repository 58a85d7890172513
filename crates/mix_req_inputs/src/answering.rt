//! What is done about a request on inputs.
ghost use Rattle.std.specs.Prelude.{◌≡◌, []};
ghost use Rattle.mix_model.specs.WholeShape.{StudioShape};
ghost use Rattle.mix_requests.specs.Outcomes.{DoesLine};
ghost use Rattle.mix_requests.specs.Ready.{IsReady};
ghost use Rattle.mix_req_inputs.specs.Inputs.{input_line, most_events};

use crate::creating::create_input;
use mix_base::Json;
use mix_model::{Body, Notes};
use mix_requests::{Caller, Events, InputRequest, Refused};
use mix_studio::Studio;
use std::alloc::Global;

/// Does a request on inputs, and nothing where it isn't built. What it tells comes to `events`, which is
/// empty before; where it is refused these don't count.
pub fn answer(
    alloc: Global,
    studio: &mut Studio,
    notes: &mut Notes,
    caller: Caller,
    request: InputRequest,
    body: &Body,
    events: &mut Events,
) -> Option<Result<Option<Json>, Refused>>
    requires ready { IsReady studio.old notes.old }
    requires empty { events.old ≡ [] }
    ensures does { DoesLine result studio.old studio.new notes.old notes.new events.new
        (input_line studio.old.present notes.old caller body.now request) }
    ensures shape { StudioShape studio.new.present }
{
    match request {
        InputRequest::CreateInput => Some(create_input(alloc, studio, notes, caller, body, events)),
        InputRequest::GetInputAudioSyncOffset
        | InputRequest::GetInputAudioTracks
        | InputRequest::GetInputKindList
        | InputRequest::GetInputList
        | InputRequest::GetInputMute
        | InputRequest::GetInputSettings
        | InputRequest::GetInputVolume
        | InputRequest::RemoveInput
        | InputRequest::SetInputAudioSyncOffset
        | InputRequest::SetInputAudioTracks
        | InputRequest::SetInputMute
        | InputRequest::SetInputName
        | InputRequest::SetInputSettings
        | InputRequest::SetInputVolume
        | InputRequest::ToggleInputMute => None,
    }
}

/// The most events of a request of this type, those of the settling aside.
pub fn most_events(request: InputRequest) -> u32
    ensures value { result ≡ most_events request }
{
    match request {
        InputRequest::CreateInput => 2,
        _ => 0,
    }
}
