//! The fields of the events on inputs.
ghost use Rattle.std.specs.Prelude.{◌≡◌, OnOk, codes};
ghost use Rattle.mix_base.specs.declared.json.Json as json;
ghost use Rattle.mix_model.specs.Texts.{kind_id};
ghost use Rattle.mix_json.specs.Growing.{more_field, more_fields};
ghost use Rattle.mix_json.specs.Trees.{obj_of};
ghost use Rattle.mix_events.specs.Sayable.{IsShort, IsWhole};
ghost use Rattle.mix_events.specs.InputEvents.{input_active, input_created, input_fields};
ghost use Rattle.mix_events.specs.InputEvents.{input_muted, input_offset, input_renamed};
ghost use Rattle.mix_events.specs.InputEvents.{input_settings, input_showing, input_tracks};
ghost use Rattle.mix_events.specs.InputEvents.{input_volume, track_fields};

use crate::uuids::with_uuid;
use mix_base::{JsonObj, Name, NoMemory, Serial};
use mix_json::JsonText;
use mix_model::Kind;

/// With the name and the UUID of an input.
#[tactic(auto, unfolding(crate::specs::InputEvents::input_fields))]
pub fn with_input(out: &mut JsonText, input: &Name, serial: Serial) -> Result<(), NoMemory>
    requires { IsShort serial }
    ensures value { OnOk result (out.new ≡ more_fields (input_fields input.now serial) out.old) }
{
    out.text("inputName", input.as_str())?;
    with_uuid(out, "inputUuid", serial)
}

pub fn kind_id(kind: Kind) -> &'static str
    ensures value { result.now ≡ kind_id kind }
{
    match kind {
        Kind::Scene | Kind::Group => "",
        Kind::Color => "color_source_v3",
        Kind::Checker => "checker_source",
        Kind::Scroll => "scroll_source",
        Kind::Raster => "raster_source",
        Kind::Tone => "tone_source",
    }
}

#[tactic(auto, unfolding(crate::specs::InputEvents::input_created))]
pub fn created(
    out: &mut JsonText,
    kind: Kind,
    settings: &JsonObj,
    input: &Name,
    serial: Serial,
) -> Result<(), NoMemory>
    requires whole { IsWhole settings.now }
    requires short { IsShort serial }
    ensures value { OnOk result
        (out.new ≡ more_fields (input_created kind settings.now input.now serial) out.old) }
{
    out.text("inputKind", kind_id(kind))?;
    out.text("inputName", input.as_str())?;
    out.kept("inputSettings", settings)?;
    with_uuid(out, "inputUuid", serial)
}

pub fn renamed(out: &mut JsonText, old: &Name, input: &Name, serial: Serial) -> Result<(), NoMemory>
    requires { IsShort serial }
    ensures value { OnOk result
        (out.new ≡ more_fields (input_renamed old.now input.now serial) out.old) }
{
    with_input(out, input, serial)?;
    out.text("oldInputName", old.as_str())
}

#[tactic(auto, unfolding(crate::specs::InputEvents::input_settings))]
pub fn set(
    out: &mut JsonText,
    settings: &JsonObj,
    input: &Name,
    serial: Serial,
) -> Result<(), NoMemory>
    requires whole { IsWhole settings.now }
    requires short { IsShort serial }
    ensures value { OnOk result
        (out.new ≡ more_fields (input_settings settings.now input.now serial) out.old) }
{
    out.text("inputName", input.as_str())?;
    out.kept("inputSettings", settings)?;
    with_uuid(out, "inputUuid", serial)
}

#[tactic(auto, unfolding(crate::specs::InputEvents::input_muted))]
pub fn muted(out: &mut JsonText, muted: bool, input: &Name, serial: Serial) -> Result<(), NoMemory>
    requires { IsShort serial }
    ensures value { OnOk result
        (out.new ≡ more_fields (input_muted muted input.now serial) out.old) }
{
    out.truth("inputMuted", muted)?;
    with_input(out, input, serial)
}

#[tactic(auto, unfolding(crate::specs::InputEvents::input_volume), using(mix_json::proofs::TextLemmas::more_fields_append))]
pub fn volume(out: &mut JsonText, volume: u32, input: &Name, serial: Serial) -> Result<(), NoMemory>
    requires { IsShort serial }
    ensures value { OnOk result
        (out.new ≡ more_fields (input_volume volume input.now serial) out.old) }
{
    with_input(out, input, serial)?;
    out.int("inputVolumeMilli", i64::from(volume))
}

/// In which of the six tracks an input is heard.
#[tactic(auto, unfolding(crate::specs::InputEvents::track_fields))]
fn with_each_track(out: &mut JsonText, tracks: u8) -> Result<(), NoMemory>
    ensures value { OnOk result (out.new ≡ more_fields (track_fields tracks) out.old) }
{
    out.truth("1", tracks & 1 != 0)?;
    out.truth("2", tracks & 2 != 0)?;
    out.truth("3", tracks & 4 != 0)?;
    out.truth("4", tracks & 8 != 0)?;
    out.truth("5", tracks & 16 != 0)?;
    out.truth("6", tracks & 32 != 0)
}

fn with_tracks(out: &mut JsonText, tracks: u8) -> Result<(), NoMemory>
    ensures value { OnOk result (out.new ≡ more_field (codes "inputAudioTracks")
        (json.Obj (obj_of (track_fields tracks))) out.old) }
{
    out.key("inputAudioTracks")?;
    out.open()?;
    with_each_track(out, tracks)?;
    out.close()
}

#[tactic(auto, unfolding(crate::specs::InputEvents::input_tracks))]
pub fn tracks(out: &mut JsonText, tracks: u8, input: &Name, serial: Serial) -> Result<(), NoMemory>
    requires { IsShort serial }
    ensures value { OnOk result
        (out.new ≡ more_fields (input_tracks tracks input.now serial) out.old) }
{
    with_tracks(out, tracks)?;
    with_input(out, input, serial)
}

#[tactic(auto, unfolding(crate::specs::InputEvents::input_offset))]
pub fn offset(out: &mut JsonText, offset: i32, input: &Name, serial: Serial) -> Result<(), NoMemory>
    requires { IsShort serial }
    ensures value { OnOk result
        (out.new ≡ more_fields (input_offset offset input.now serial) out.old) }
{
    out.int("inputAudioSyncOffset", i64::from(offset))?;
    with_input(out, input, serial)
}

pub fn active(
    out: &mut JsonText,
    input: &Name,
    serial: Serial,
    active: bool,
) -> Result<(), NoMemory>
    requires { IsShort serial }
    ensures value { OnOk result
        (out.new ≡ more_fields (input_active input.now serial active) out.old) }
{
    with_input(out, input, serial)?;
    out.truth("videoActive", active)
}

pub fn showing(
    out: &mut JsonText,
    input: &Name,
    serial: Serial,
    showing: bool,
) -> Result<(), NoMemory>
    requires { IsShort serial }
    ensures value { OnOk result
        (out.new ≡ more_fields (input_showing input.now serial showing) out.old) }
{
    with_input(out, input, serial)?;
    out.truth("videoShowing", showing)
}
