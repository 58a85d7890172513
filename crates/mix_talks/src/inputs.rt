//! Events on inputs.
ghost use Rattle.std.specs.Prelude.{IfOk, IfSome};
ghost use Rattle.mix_events.specs.Sayable.{IsSayableEvent, IsShort};

use crate::given::{count, name, serial, settings, truth, whole};
use mix_base::{Json, JsonObj, Name, NoMemory, Serial};
use mix_json::need_obj;
use mix_model::{Event, Kind};
use std::alloc::Global;

/// The event of a type.
pub fn event(alloc: Global, kind: &str, data: &JsonObj) -> Result<Option<Event>, NoMemory>
    ensures { IfOk result (λ event. IfSome event IsSayableEvent) }
{
    if kind == "InputCreated" {
        created(alloc, data)
    } else if kind == "InputSettingsChanged" {
        set(alloc, data)
    } else if kind == "InputNameChanged" {
        Ok(renamed(data))
    } else {
        Ok(sound(kind, data))
    }
}

/// An event on whether an input is active or shows.
pub fn state(kind: &str, data: &JsonObj) -> Option<Event>
    ensures { IfSome result IsSayableEvent }
{
    let input = name(data, "inputName")?;
    let serial = serial(data, "inputUuid");
    if kind == "InputActiveStateChanged" {
        let active = truth(data, "videoActive");
        Some(Event::InputActiveStateChanged {
            input,
            serial,
            active,
        })
    } else {
        let showing = truth(data, "videoShowing");
        Some(Event::InputShowStateChanged {
            input,
            serial,
            showing,
        })
    }
}

fn created(alloc: Global, data: &JsonObj) -> Result<Option<Event>, NoMemory>
    ensures { IfOk result (λ event. IfSome event IsSayableEvent) }
{
    let Some(input) = name(data, "inputName") else {
        return Ok(None);
    };
    Ok(Some(Event::InputCreated {
        kind: kind_in(data),
        settings: settings(alloc, data, "inputSettings")?,
        input,
        serial: serial(data, "inputUuid"),
    }))
}

fn set(alloc: Global, data: &JsonObj) -> Result<Option<Event>, NoMemory>
    ensures { IfOk result (λ event. IfSome event IsSayableEvent) }
{
    let Some(input) = name(data, "inputName") else {
        return Ok(None);
    };
    Ok(Some(Event::InputSettingsChanged {
        settings: settings(alloc, data, "inputSettings")?,
        input,
        serial: serial(data, "inputUuid"),
    }))
}

/// The kind of an input by its id; a tone where it is no other.
fn kind_in(data: &JsonObj) -> Kind {
    match data.get("inputKind") {
        Some(Json::Text(id)) => kind_of(id.as_str()),
        _ => Kind::Tone,
    }
}

fn kind_of(id: &str) -> Kind {
    if id == "color_source_v3" {
        Kind::Color
    } else if id == "checker_source" {
        Kind::Checker
    } else if id == "scroll_source" {
        Kind::Scroll
    } else if id == "raster_source" {
        Kind::Raster
    } else {
        Kind::Tone
    }
}

fn renamed(data: &JsonObj) -> Option<Event>
    ensures { IfSome result IsSayableEvent }
{
    Some(Event::InputNameChanged {
        old: name(data, "oldInputName")?,
        input: name(data, "inputName")?,
        serial: serial(data, "inputUuid"),
    })
}

/// An event on how an input sounds, or its end.
fn sound(kind: &str, data: &JsonObj) -> Option<Event>
    ensures { IfSome result IsSayableEvent }
{
    let input = name(data, "inputName")?;
    heard(kind, data, input, serial(data, "inputUuid"))
}

fn heard(kind: &str, data: &JsonObj, input: Name, serial: Serial) -> Option<Event>
    requires { IsShort serial }
    ensures { IfSome result IsSayableEvent }
{
    if kind == "InputMuteStateChanged" {
        let muted = truth(data, "inputMuted");
        Some(Event::InputMuteStateChanged {
            muted,
            input,
            serial,
        })
    } else if kind == "InputVolumeChanged" {
        let volume = count(data, "inputVolumeMilli");
        Some(Event::InputVolumeChanged {
            volume,
            input,
            serial,
        })
    } else if kind == "InputAudioTracksChanged" {
        let tracks = tracks_in(data);
        Some(Event::InputAudioTracksChanged {
            tracks,
            input,
            serial,
        })
    } else if kind == "InputAudioSyncOffsetChanged" {
        let offset = i32::try_from(whole(data, "inputAudioSyncOffset")).unwrap_or(0);
        Some(Event::InputAudioSyncOffsetChanged {
            offset,
            input,
            serial,
        })
    } else if kind == "InputRemoved" {
        Some(Event::InputRemoved { input, serial })
    } else {
        None
    }
}

/// A bit for each track, the lowest for track 1.
fn tracks_in(data: &JsonObj) -> u8 {
    let Ok(tracks) = need_obj(data, "inputAudioTracks") else {
        return 0;
    };
    let mut bits: u8 = 0;
    for (key, bit) in [("1", 1), ("2", 2), ("3", 4), ("4", 8), ("5", 16), ("6", 32)] {
        if truth(tracks, key) {
            bits |= bit;
        }
    }
    bits
}
