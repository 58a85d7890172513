//! Events: their types, their bits and their objects.
ghost use Rattle.std.specs.Prelude.{◌≡◌, OnOk, codes};
ghost use Rattle.mix_base.specs.declared.json.Json as json;
ghost use Rattle.mix_json.specs.Growing.{more_field, more_fields};
ghost use Rattle.mix_json.specs.Trees.{obj_of};
ghost use Rattle.mix_events.specs.Sayable.{IsSayableEvent};
ghost use Rattle.mix_events.specs.Events.{event_fields, event_intent, event_object};
ghost use Rattle.mix_events.specs.Events.{event_parts, event_type};

use crate::{inputs, items, others, scenes};
use mix_base::NoMemory;
use mix_json::JsonText;
use mix_model::Event;

/// The bit of an event in the mask `eventSubscriptions`: who has set it is told of the event.
pub fn intent(event: &Event) -> u32
    ensures value { result ≡ event_intent event.now }
{
    match event {
        Event::CustomEvent { .. } => 1,
        Event::SceneCreated { .. }
        | Event::SceneRemoved { .. }
        | Event::SceneNameChanged { .. }
        | Event::CurrentProgramSceneChanged { .. }
        | Event::CurrentPreviewSceneChanged { .. } => 4,
        Event::InputCreated { .. }
        | Event::InputRemoved { .. }
        | Event::InputNameChanged { .. }
        | Event::InputSettingsChanged { .. }
        | Event::InputMuteStateChanged { .. }
        | Event::InputVolumeChanged { .. }
        | Event::InputAudioTracksChanged { .. }
        | Event::InputAudioSyncOffsetChanged { .. } => 8,
        Event::CurrentSceneTransitionChanged { .. }
        | Event::SceneTransitionStarted { .. }
        | Event::SceneTransitionEnded { .. }
        | Event::CurrentSceneTransitionDurationChanged { .. } => 16,
        Event::RecordStateChanged { .. } => 64,
        Event::SceneItemCreated { .. }
        | Event::SceneItemRemoved { .. }
        | Event::SceneItemListReindexed { .. }
        | Event::SceneItemEnableStateChanged { .. }
        | Event::SceneItemLockStateChanged { .. } => 128,
        Event::StudioModeStateChanged { .. } => 1024,
        Event::InputActiveStateChanged { .. } => 131072,
        Event::InputShowStateChanged { .. } => 262144,
        Event::SceneItemTransformChanged { .. } => 524288,
    }
}

/// The text `eventType`.
fn event_type(event: &Event) -> &'static str
    ensures value { result.now ≡ event_type event.now }
{
    match event {
        Event::CustomEvent { .. } => "CustomEvent",
        Event::SceneCreated { .. } => "SceneCreated",
        Event::SceneRemoved { .. } => "SceneRemoved",
        Event::SceneNameChanged { .. } => "SceneNameChanged",
        Event::CurrentProgramSceneChanged { .. } => "CurrentProgramSceneChanged",
        Event::CurrentPreviewSceneChanged { .. } => "CurrentPreviewSceneChanged",
        Event::InputCreated { .. } => "InputCreated",
        Event::InputRemoved { .. } => "InputRemoved",
        Event::InputNameChanged { .. } => "InputNameChanged",
        Event::InputSettingsChanged { .. } => "InputSettingsChanged",
        Event::InputMuteStateChanged { .. } => "InputMuteStateChanged",
        Event::InputVolumeChanged { .. } => "InputVolumeChanged",
        Event::InputAudioTracksChanged { .. } => "InputAudioTracksChanged",
        Event::InputAudioSyncOffsetChanged { .. } => "InputAudioSyncOffsetChanged",
        Event::CurrentSceneTransitionChanged { .. } => "CurrentSceneTransitionChanged",
        Event::SceneTransitionStarted { .. } => "SceneTransitionStarted",
        Event::SceneTransitionEnded { .. } => "SceneTransitionEnded",
        Event::CurrentSceneTransitionDurationChanged { .. } =>
            "CurrentSceneTransitionDurationChanged",
        Event::RecordStateChanged { .. } => "RecordStateChanged",
        Event::SceneItemCreated { .. } => "SceneItemCreated",
        Event::SceneItemRemoved { .. } => "SceneItemRemoved",
        Event::SceneItemListReindexed { .. } => "SceneItemListReindexed",
        Event::SceneItemEnableStateChanged { .. } => "SceneItemEnableStateChanged",
        Event::SceneItemLockStateChanged { .. } => "SceneItemLockStateChanged",
        Event::StudioModeStateChanged { .. } => "StudioModeStateChanged",
        Event::InputActiveStateChanged { .. } => "InputActiveStateChanged",
        Event::InputShowStateChanged { .. } => "InputShowStateChanged",
        Event::SceneItemTransformChanged { .. } => "SceneItemTransformChanged",
    }
}

/// The fields of the object `eventData`, but for a custom event.
fn with_parts(out: &mut JsonText, event: &Event) -> Result<(), NoMemory>
    requires { IsSayableEvent event.now }
    ensures value { OnOk result (out.new ≡ more_fields (event_parts event.now) out.old) }
{
    match event {
        Event::CustomEvent { .. } => Ok(()),
        Event::SceneCreated { scene, serial } => scenes::came(out, scene, *serial),
        Event::SceneRemoved { scene, serial } => scenes::came(out, scene, *serial),
        Event::SceneNameChanged { old, scene, serial } => scenes::renamed(out, old, scene, *serial),
        Event::CurrentProgramSceneChanged { scene, serial } => scenes::with_scene(
            out, scene, *serial,
        ),
        Event::CurrentPreviewSceneChanged { scene, serial } => scenes::with_scene(
            out, scene, *serial,
        ),
        Event::InputCreated {
            kind,
            settings,
            input,
            serial,
        } => inputs::created(out, *kind, settings, input, *serial),
        Event::InputRemoved { input, serial } => inputs::with_input(out, input, *serial),
        Event::InputNameChanged { old, input, serial } => inputs::renamed(out, old, input, *serial),
        Event::InputSettingsChanged {
            settings,
            input,
            serial,
        } => inputs::set(out, settings, input, *serial),
        Event::InputMuteStateChanged {
            muted,
            input,
            serial,
        } => inputs::muted(out, *muted, input, *serial),
        Event::InputVolumeChanged {
            volume,
            input,
            serial,
        } => inputs::volume(out, *volume, input, *serial),
        Event::InputAudioTracksChanged {
            tracks,
            input,
            serial,
        } => inputs::tracks(out, *tracks, input, *serial),
        Event::InputAudioSyncOffsetChanged {
            offset,
            input,
            serial,
        } => inputs::offset(out, *offset, input, *serial),
        Event::CurrentSceneTransitionChanged { transition } => others::transition(out, *transition),
        Event::SceneTransitionStarted { transition } => others::transition(out, *transition),
        Event::SceneTransitionEnded { transition } => others::transition(out, *transition),
        Event::CurrentSceneTransitionDurationChanged { duration } => others::duration(
            out, *duration,
        ),
        Event::RecordStateChanged { active, word } => others::record(out, *active, *word),
        Event::SceneItemCreated {
            item,
            index,
            scene,
            serial,
            source,
            source_serial,
        } => items::created(out, *item, *index, scene, *serial, source, *source_serial),
        Event::SceneItemRemoved {
            item,
            scene,
            serial,
            source,
            source_serial,
        } => items::removed(out, *item, scene, *serial, source, *source_serial),
        Event::SceneItemListReindexed {
            items,
            scene,
            serial,
        } => items::reindexed(out, items, scene, *serial),
        Event::SceneItemEnableStateChanged {
            enabled,
            item,
            scene,
            serial,
        } => items::enabled(out, *enabled, *item, scene, *serial),
        Event::SceneItemLockStateChanged {
            item,
            locked,
            scene,
            serial,
        } => items::locked(out, *item, *locked, scene, *serial),
        Event::StudioModeStateChanged { enabled } => others::studio(out, *enabled),
        Event::InputActiveStateChanged {
            input,
            serial,
            active,
        } => inputs::active(out, input, *serial, *active),
        Event::InputShowStateChanged {
            input,
            serial,
            showing,
        } => inputs::showing(out, input, *serial, *showing),
        Event::SceneItemTransformChanged {
            item,
            place,
            size,
            scene,
            serial,
        } => items::transformed(out, *item, place, *size, scene, *serial),
    }
}

/// With the object `eventData`, made of the event's fields.
#[tactic(auto, using(crate::proofs::EventLemmas::parts_under))]
fn with_made(out: &mut JsonText, event: &Event) -> Result<(), NoMemory>
    requires { IsSayableEvent event.now }
    ensures value { OnOk result (out.new ≡ more_field (codes "eventData")
        (json.Obj (obj_of (event_parts event.now))) out.old) }
{
    out.key("eventData")?;
    out.open()?;
    with_parts(out, event)?;
    out.close()
}

/// With the object `eventData`.
fn with_object(out: &mut JsonText, event: &Event) -> Result<(), NoMemory>
    requires { IsSayableEvent event.now }
    ensures value { OnOk result (out.new
        ≡ more_field (codes "eventData") (json.Obj (event_object event.now)) out.old) }
{
    match event {
        Event::CustomEvent { fields } => out.kept("eventData", fields),
        _ => with_made(out, event),
    }
}

/// The fields of an event's message.
#[tactic(auto, unfolding(crate::specs::Events::event_fields))]
pub fn event_fields(out: &mut JsonText, event: &Event) -> Result<(), NoMemory>
    requires { IsSayableEvent event.now }
    ensures value { OnOk result (out.new ≡ more_fields (event_fields event.now) out.old) }
{
    with_object(out, event)?;
    out.int("eventIntent", i64::from(intent(event)))?;
    out.text("eventType", event_type(event))
}
