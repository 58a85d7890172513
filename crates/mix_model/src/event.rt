//! What connections are told of what happened.
ghost use Rattle.std.specs.Prelude.{◌≡◌, IfOk};

use crate::copies::copy_items;
use crate::{IdList, Kind, Place, RecordWord, Transition};
use mix_base::{ItemId, JsonObj, Name, NoMemory, Serial};
use std::alloc::Global;

/// What connections are told of what happened: an event of obs-websocket 5, with the fields of its
/// `eventData`. A source stands as its name and its serial, of which the UUID is made.
#[derive(Drop)]
pub enum Event {
    CustomEvent {
        fields: JsonObj,
    },
    SceneCreated {
        scene: Name,
        serial: Serial,
    },
    SceneRemoved {
        scene: Name,
        serial: Serial,
    },
    SceneNameChanged {
        old: Name,
        scene: Name,
        serial: Serial,
    },
    CurrentProgramSceneChanged {
        scene: Name,
        serial: Serial,
    },
    CurrentPreviewSceneChanged {
        scene: Name,
        serial: Serial,
    },
    InputCreated {
        kind: Kind,
        settings: JsonObj,
        input: Name,
        serial: Serial,
    },
    InputRemoved {
        input: Name,
        serial: Serial,
    },
    InputNameChanged {
        old: Name,
        input: Name,
        serial: Serial,
    },
    InputSettingsChanged {
        settings: JsonObj,
        input: Name,
        serial: Serial,
    },
    InputMuteStateChanged {
        muted: bool,
        input: Name,
        serial: Serial,
    },
    InputVolumeChanged {
        /// Thousandths.
        volume: u32,
        input: Name,
        serial: Serial,
    },
    InputAudioTracksChanged {
        /// A bit for each track.
        tracks: u8,
        input: Name,
        serial: Serial,
    },
    InputAudioSyncOffsetChanged {
        /// Milliseconds.
        offset: i32,
        input: Name,
        serial: Serial,
    },
    CurrentSceneTransitionChanged {
        transition: Transition,
    },
    SceneTransitionStarted {
        transition: Transition,
    },
    SceneTransitionEnded {
        transition: Transition,
    },
    CurrentSceneTransitionDurationChanged {
        /// Milliseconds.
        duration: u32,
    },
    RecordStateChanged {
        active: bool,
        word: RecordWord,
    },
    SceneItemCreated {
        item: ItemId,
        index: u32,
        scene: Name,
        serial: Serial,
        source: Name,
        source_serial: Serial,
    },
    SceneItemRemoved {
        item: ItemId,
        scene: Name,
        serial: Serial,
        source: Name,
        source_serial: Serial,
    },
    SceneItemListReindexed {
        /// From bottom to top.
        items: IdList,
        scene: Name,
        serial: Serial,
    },
    SceneItemEnableStateChanged {
        enabled: bool,
        item: ItemId,
        scene: Name,
        serial: Serial,
    },
    SceneItemLockStateChanged {
        item: ItemId,
        locked: bool,
        scene: Name,
        serial: Serial,
    },
    StudioModeStateChanged {
        enabled: bool,
    },
    InputActiveStateChanged {
        input: Name,
        serial: Serial,
        active: bool,
    },
    InputShowStateChanged {
        input: Name,
        serial: Serial,
        showing: bool,
    },
    SceneItemTransformChanged {
        item: ItemId,
        place: Place,
        /// The width and the height of the source in pixels.
        size: (u32, u32),
        scene: Name,
        serial: Serial,
    },
}

impl Event {
    /// The same event once more.
    pub fn copy(&self, alloc: Global) -> Result<Event, NoMemory>
        ensures value { IfOk result (λ copy. copy ≡ self.now) }
    {
        let copy = match self {
            Event::CustomEvent { fields } => Event::CustomEvent {
                fields: fields.copy(alloc)?,
            },
            Event::SceneCreated { scene, serial } => Event::SceneCreated {
                scene: scene.share(),
                serial: *serial,
            },
            Event::SceneRemoved { scene, serial } => Event::SceneRemoved {
                scene: scene.share(),
                serial: *serial,
            },
            Event::SceneNameChanged { old, scene, serial } => Event::SceneNameChanged {
                old: old.share(),
                scene: scene.share(),
                serial: *serial,
            },
            Event::CurrentProgramSceneChanged { scene, serial } =>
                Event::CurrentProgramSceneChanged {
                    scene: scene.share(),
                    serial: *serial,
                },
            Event::CurrentPreviewSceneChanged { scene, serial } =>
                Event::CurrentPreviewSceneChanged {
                    scene: scene.share(),
                    serial: *serial,
                },
            Event::InputCreated {
                kind,
                settings,
                input,
                serial,
            } => Event::InputCreated {
                kind: *kind,
                settings: settings.copy(alloc)?,
                input: input.share(),
                serial: *serial,
            },
            Event::InputRemoved { input, serial } => Event::InputRemoved {
                input: input.share(),
                serial: *serial,
            },
            Event::InputNameChanged { old, input, serial } => Event::InputNameChanged {
                old: old.share(),
                input: input.share(),
                serial: *serial,
            },
            Event::InputSettingsChanged {
                settings,
                input,
                serial,
            } => Event::InputSettingsChanged {
                settings: settings.copy(alloc)?,
                input: input.share(),
                serial: *serial,
            },
            Event::InputMuteStateChanged {
                muted,
                input,
                serial,
            } => Event::InputMuteStateChanged {
                muted: *muted,
                input: input.share(),
                serial: *serial,
            },
            Event::InputVolumeChanged {
                volume,
                input,
                serial,
            } => Event::InputVolumeChanged {
                volume: *volume,
                input: input.share(),
                serial: *serial,
            },
            Event::InputAudioTracksChanged {
                tracks,
                input,
                serial,
            } => Event::InputAudioTracksChanged {
                tracks: *tracks,
                input: input.share(),
                serial: *serial,
            },
            Event::InputAudioSyncOffsetChanged {
                offset,
                input,
                serial,
            } => Event::InputAudioSyncOffsetChanged {
                offset: *offset,
                input: input.share(),
                serial: *serial,
            },
            Event::CurrentSceneTransitionChanged { transition } =>
                Event::CurrentSceneTransitionChanged {
                    transition: *transition,
                },
            Event::SceneTransitionStarted { transition } => Event::SceneTransitionStarted {
                transition: *transition,
            },
            Event::SceneTransitionEnded { transition } => Event::SceneTransitionEnded {
                transition: *transition,
            },
            Event::CurrentSceneTransitionDurationChanged { duration } =>
                Event::CurrentSceneTransitionDurationChanged {
                    duration: *duration,
                },
            Event::RecordStateChanged { active, word } => Event::RecordStateChanged {
                active: *active,
                word: *word,
            },
            Event::SceneItemCreated {
                item,
                index,
                scene,
                serial,
                source,
                source_serial,
            } => Event::SceneItemCreated {
                item: *item,
                index: *index,
                scene: scene.share(),
                serial: *serial,
                source: source.share(),
                source_serial: *source_serial,
            },
            Event::SceneItemRemoved {
                item,
                scene,
                serial,
                source,
                source_serial,
            } => Event::SceneItemRemoved {
                item: *item,
                scene: scene.share(),
                serial: *serial,
                source: source.share(),
                source_serial: *source_serial,
            },
            Event::SceneItemListReindexed {
                items,
                scene,
                serial,
            } => Event::SceneItemListReindexed {
                items: copy_items(alloc, items)?,
                scene: scene.share(),
                serial: *serial,
            },
            Event::SceneItemEnableStateChanged {
                enabled,
                item,
                scene,
                serial,
            } => Event::SceneItemEnableStateChanged {
                enabled: *enabled,
                item: *item,
                scene: scene.share(),
                serial: *serial,
            },
            Event::SceneItemLockStateChanged {
                item,
                locked,
                scene,
                serial,
            } => Event::SceneItemLockStateChanged {
                item: *item,
                locked: *locked,
                scene: scene.share(),
                serial: *serial,
            },
            Event::StudioModeStateChanged { enabled } => Event::StudioModeStateChanged {
                enabled: *enabled,
            },
            Event::InputActiveStateChanged {
                input,
                serial,
                active,
            } => Event::InputActiveStateChanged {
                input: input.share(),
                serial: *serial,
                active: *active,
            },
            Event::InputShowStateChanged {
                input,
                serial,
                showing,
            } => Event::InputShowStateChanged {
                input: input.share(),
                serial: *serial,
                showing: *showing,
            },
            Event::SceneItemTransformChanged {
                item,
                place,
                size,
                scene,
                serial,
            } => Event::SceneItemTransformChanged {
                item: *item,
                place: *place,
                size: *size,
                scene: scene.share(),
                serial: *serial,
            },
        };
        Ok(copy)
    }
}
