//! The fields of the events on transitions, the recording and studio mode.
ghost use Rattle.std.specs.Prelude.{◌≡◌, OnOk};
ghost use Rattle.mix_json.specs.Growing.{more_fields};
ghost use Rattle.mix_model.specs.Texts.{transition_name};
ghost use Rattle.mix_events.specs.OtherEvents.{duration_fields, fades, output_state};
ghost use Rattle.mix_events.specs.OtherEvents.{record_fields, studio_fields, transition_fields};

use mix_base::NoMemory;
use mix_json::JsonText;
use mix_model::{RecordWord, Transition};

fn transition_text(transition: Transition) -> &'static str
    ensures { result.now ≡ transition_name (fades transition) }
{
    match transition {
        Transition::Cut => "Cut",
        Transition::Fade => "Fade",
    }
}

#[tactic(auto, unfolding(crate::specs::OtherEvents::transition_fields))]
pub fn transition(out: &mut JsonText, transition: Transition) -> Result<(), NoMemory>
    ensures value { OnOk result (out.new ≡ more_fields (transition_fields transition) out.old) }
{
    out.text("transitionName", transition_text(transition))
}

#[tactic(auto, unfolding(crate::specs::OtherEvents::duration_fields))]
pub fn duration(out: &mut JsonText, duration: u32) -> Result<(), NoMemory>
    ensures value { OnOk result (out.new ≡ more_fields (duration_fields duration) out.old) }
{
    out.int("transitionDuration", i64::from(duration))
}

#[tactic(auto, unfolding(crate::specs::OtherEvents::output_state))]
fn output_state(word: RecordWord) -> &'static str
    ensures { result.now ≡ output_state word }
{
    match word {
        RecordWord::Started => "OBS_WEBSOCKET_OUTPUT_STARTED",
        RecordWord::Stopped => "OBS_WEBSOCKET_OUTPUT_STOPPED",
        RecordWord::Paused => "OBS_WEBSOCKET_OUTPUT_PAUSED",
        RecordWord::Resumed => "OBS_WEBSOCKET_OUTPUT_RESUMED",
    }
}

pub fn record(out: &mut JsonText, active: bool, word: RecordWord) -> Result<(), NoMemory>
    ensures value { OnOk result (out.new ≡ more_fields (record_fields active word) out.old) }
{
    out.truth("outputActive", active)?;
    out.null("outputPath")?;
    out.text("outputState", output_state(word))
}

#[tactic(auto, unfolding(crate::specs::OtherEvents::studio_fields))]
pub fn studio(out: &mut JsonText, enabled: bool) -> Result<(), NoMemory>
    ensures value { OnOk result (out.new ≡ more_fields (studio_fields enabled) out.old) }
{
    out.truth("studioModeEnabled", enabled)
}
