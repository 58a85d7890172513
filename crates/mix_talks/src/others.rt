//! Events on transitions, the recording and studio mode, and those that a client says.
ghost use Rattle.std.specs.Prelude.{IfOk, IfSome};
ghost use Rattle.mix_events.specs.Sayable.{IsSayableEvent};

use crate::given::{count, settings, truth};
use mix_base::{JsonObj, NoMemory};
use mix_json::need_text;
use mix_model::{Event, RecordWord, Transition};
use std::alloc::Global;

/// The event of a type.
pub fn event(alloc: Global, kind: &str, data: &JsonObj) -> Result<Option<Event>, NoMemory>
    ensures { IfOk result (λ event. IfSome event IsSayableEvent) }
{
    if kind == "CustomEvent" {
        custom(alloc, data)
    } else if kind == "RecordStateChanged" {
        Ok(Some(Event::RecordStateChanged {
            active: truth(data, "outputActive"),
            word: word_in(data),
        }))
    } else if kind == "StudioModeStateChanged" {
        let enabled = truth(data, "studioModeEnabled");
        Ok(Some(Event::StudioModeStateChanged { enabled }))
    } else {
        Ok(of_transition(kind, data))
    }
}

fn custom(alloc: Global, data: &JsonObj) -> Result<Option<Event>, NoMemory>
    ensures { IfOk result (λ event. IfSome event IsSayableEvent) }
{
    if data.has_frac() {
        return Ok(None);
    }
    let fields = data.copy(alloc)?;
    Ok(Some(Event::CustomEvent { fields }))
}

fn of_transition(kind: &str, data: &JsonObj) -> Option<Event>
    ensures { IfSome result IsSayableEvent }
{
    let transition = transition_in(data);
    if kind == "CurrentSceneTransitionChanged" {
        Some(Event::CurrentSceneTransitionChanged { transition })
    } else if kind == "SceneTransitionStarted" {
        Some(Event::SceneTransitionStarted { transition })
    } else if kind == "SceneTransitionEnded" {
        Some(Event::SceneTransitionEnded { transition })
    } else if kind == "CurrentSceneTransitionDurationChanged" {
        let duration = count(data, "transitionDuration");
        Some(Event::CurrentSceneTransitionDurationChanged { duration })
    } else {
        None
    }
}

fn is_text(data: &JsonObj, key: &str, text: &str) -> bool {
    match need_text(data, key) {
        Ok(found) => found.as_str() == text,
        Err(_) => false,
    }
}

fn transition_in(data: &JsonObj) -> Transition {
    if is_text(data, "transitionName", "Fade") {
        Transition::Fade
    } else {
        Transition::Cut
    }
}

fn word_in(data: &JsonObj) -> RecordWord {
    if is_text(data, "outputState", "OBS_WEBSOCKET_OUTPUT_STARTED") {
        RecordWord::Started
    } else if is_text(data, "outputState", "OBS_WEBSOCKET_OUTPUT_STOPPED") {
        RecordWord::Stopped
    } else if is_text(data, "outputState", "OBS_WEBSOCKET_OUTPUT_PAUSED") {
        RecordWord::Paused
    } else {
        RecordWord::Resumed
    }
}
