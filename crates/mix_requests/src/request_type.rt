//! What the type of a request names.
ghost use Rattle.std.specs.Prelude.{◌≡◌, bytes_eq, find, map};
ghost use Rattle.std.specs.Option.{option_copied};
ghost use Rattle.mix_requests.specs.Table.{request_among};

/// A request on scenes.
#[derive(Clone, Copy)]
pub enum SceneRequest {
    CreateScene,
    GetCurrentPreviewScene,
    GetCurrentProgramScene,
    GetGroupList,
    GetSceneList,
    GetSourceActive,
    RemoveScene,
    SetCurrentPreviewScene,
    SetCurrentProgramScene,
    SetSceneName,
}

/// A request on the items of scenes and groups.
#[derive(Clone, Copy)]
pub enum ItemRequest {
    CreateSceneItem,
    DuplicateSceneItem,
    GetGroupSceneItemList,
    GetSceneItemBlendMode,
    GetSceneItemEnabled,
    GetSceneItemId,
    GetSceneItemIndex,
    GetSceneItemList,
    GetSceneItemLocked,
    GetSceneItemTransform,
    RemoveSceneItem,
    SetSceneItemBlendMode,
    SetSceneItemEnabled,
    SetSceneItemIndex,
    SetSceneItemLocked,
    SetSceneItemTransform,
}

/// A request on inputs.
#[derive(Clone, Copy)]
pub enum InputRequest {
    CreateInput,
    GetInputAudioSyncOffset,
    GetInputAudioTracks,
    GetInputKindList,
    GetInputList,
    GetInputMute,
    GetInputSettings,
    GetInputVolume,
    RemoveInput,
    SetInputAudioSyncOffset,
    SetInputAudioTracks,
    SetInputMute,
    SetInputName,
    SetInputSettings,
    SetInputVolume,
    ToggleInputMute,
}

/// A request on transitions, studio mode, recording, or the mixer itself.
#[derive(Clone, Copy)]
pub enum OutputRequest {
    BroadcastCustomEvent,
    CallVendorRequest,
    GetCurrentSceneTransition,
    GetRecordStatus,
    GetSceneTransitionList,
    GetStudioModeEnabled,
    GetVersion,
    PauseRecord,
    ResumeRecord,
    SetCurrentSceneTransition,
    SetCurrentSceneTransitionDuration,
    SetStudioModeEnabled,
    Sleep,
    StartRecord,
    StopRecord,
    ToggleRecord,
    TriggerStudioModeTransition,
}

/// What the type of a request names: a request of obs-websocket 5 that the mixer is to know, or none.
#[derive(Clone, Copy)]
pub enum RequestType {
    Scene(SceneRequest),
    Item(ItemRequest),
    Input(InputRequest),
    Output(OutputRequest),
    Unknown,
}

/// All requests that the mixer is to know, by their types in byte order.
const TABLE: [(&str, RequestType); 59] = [
    (
        "BroadcastCustomEvent",
        RequestType::Output(OutputRequest::BroadcastCustomEvent),
    ),
    (
        "CallVendorRequest",
        RequestType::Output(OutputRequest::CallVendorRequest),
    ),
    ("CreateInput", RequestType::Input(InputRequest::CreateInput)),
    ("CreateScene", RequestType::Scene(SceneRequest::CreateScene)),
    (
        "CreateSceneItem",
        RequestType::Item(ItemRequest::CreateSceneItem),
    ),
    (
        "DuplicateSceneItem",
        RequestType::Item(ItemRequest::DuplicateSceneItem),
    ),
    (
        "GetCurrentPreviewScene",
        RequestType::Scene(SceneRequest::GetCurrentPreviewScene),
    ),
    (
        "GetCurrentProgramScene",
        RequestType::Scene(SceneRequest::GetCurrentProgramScene),
    ),
    (
        "GetCurrentSceneTransition",
        RequestType::Output(OutputRequest::GetCurrentSceneTransition),
    ),
    (
        "GetGroupList",
        RequestType::Scene(SceneRequest::GetGroupList),
    ),
    (
        "GetGroupSceneItemList",
        RequestType::Item(ItemRequest::GetGroupSceneItemList),
    ),
    (
        "GetInputAudioSyncOffset",
        RequestType::Input(InputRequest::GetInputAudioSyncOffset),
    ),
    (
        "GetInputAudioTracks",
        RequestType::Input(InputRequest::GetInputAudioTracks),
    ),
    (
        "GetInputKindList",
        RequestType::Input(InputRequest::GetInputKindList),
    ),
    (
        "GetInputList",
        RequestType::Input(InputRequest::GetInputList),
    ),
    (
        "GetInputMute",
        RequestType::Input(InputRequest::GetInputMute),
    ),
    (
        "GetInputSettings",
        RequestType::Input(InputRequest::GetInputSettings),
    ),
    (
        "GetInputVolume",
        RequestType::Input(InputRequest::GetInputVolume),
    ),
    (
        "GetRecordStatus",
        RequestType::Output(OutputRequest::GetRecordStatus),
    ),
    (
        "GetSceneItemBlendMode",
        RequestType::Item(ItemRequest::GetSceneItemBlendMode),
    ),
    (
        "GetSceneItemEnabled",
        RequestType::Item(ItemRequest::GetSceneItemEnabled),
    ),
    (
        "GetSceneItemId",
        RequestType::Item(ItemRequest::GetSceneItemId),
    ),
    (
        "GetSceneItemIndex",
        RequestType::Item(ItemRequest::GetSceneItemIndex),
    ),
    (
        "GetSceneItemList",
        RequestType::Item(ItemRequest::GetSceneItemList),
    ),
    (
        "GetSceneItemLocked",
        RequestType::Item(ItemRequest::GetSceneItemLocked),
    ),
    (
        "GetSceneItemTransform",
        RequestType::Item(ItemRequest::GetSceneItemTransform),
    ),
    (
        "GetSceneList",
        RequestType::Scene(SceneRequest::GetSceneList),
    ),
    (
        "GetSceneTransitionList",
        RequestType::Output(OutputRequest::GetSceneTransitionList),
    ),
    (
        "GetSourceActive",
        RequestType::Scene(SceneRequest::GetSourceActive),
    ),
    (
        "GetStudioModeEnabled",
        RequestType::Output(OutputRequest::GetStudioModeEnabled),
    ),
    ("GetVersion", RequestType::Output(OutputRequest::GetVersion)),
    (
        "PauseRecord",
        RequestType::Output(OutputRequest::PauseRecord),
    ),
    ("RemoveInput", RequestType::Input(InputRequest::RemoveInput)),
    ("RemoveScene", RequestType::Scene(SceneRequest::RemoveScene)),
    (
        "RemoveSceneItem",
        RequestType::Item(ItemRequest::RemoveSceneItem),
    ),
    (
        "ResumeRecord",
        RequestType::Output(OutputRequest::ResumeRecord),
    ),
    (
        "SetCurrentPreviewScene",
        RequestType::Scene(SceneRequest::SetCurrentPreviewScene),
    ),
    (
        "SetCurrentProgramScene",
        RequestType::Scene(SceneRequest::SetCurrentProgramScene),
    ),
    (
        "SetCurrentSceneTransition",
        RequestType::Output(OutputRequest::SetCurrentSceneTransition),
    ),
    (
        "SetCurrentSceneTransitionDuration",
        RequestType::Output(OutputRequest::SetCurrentSceneTransitionDuration),
    ),
    (
        "SetInputAudioSyncOffset",
        RequestType::Input(InputRequest::SetInputAudioSyncOffset),
    ),
    (
        "SetInputAudioTracks",
        RequestType::Input(InputRequest::SetInputAudioTracks),
    ),
    (
        "SetInputMute",
        RequestType::Input(InputRequest::SetInputMute),
    ),
    (
        "SetInputName",
        RequestType::Input(InputRequest::SetInputName),
    ),
    (
        "SetInputSettings",
        RequestType::Input(InputRequest::SetInputSettings),
    ),
    (
        "SetInputVolume",
        RequestType::Input(InputRequest::SetInputVolume),
    ),
    (
        "SetSceneItemBlendMode",
        RequestType::Item(ItemRequest::SetSceneItemBlendMode),
    ),
    (
        "SetSceneItemEnabled",
        RequestType::Item(ItemRequest::SetSceneItemEnabled),
    ),
    (
        "SetSceneItemIndex",
        RequestType::Item(ItemRequest::SetSceneItemIndex),
    ),
    (
        "SetSceneItemLocked",
        RequestType::Item(ItemRequest::SetSceneItemLocked),
    ),
    (
        "SetSceneItemTransform",
        RequestType::Item(ItemRequest::SetSceneItemTransform),
    ),
    (
        "SetSceneName",
        RequestType::Scene(SceneRequest::SetSceneName),
    ),
    (
        "SetStudioModeEnabled",
        RequestType::Output(OutputRequest::SetStudioModeEnabled),
    ),
    ("Sleep", RequestType::Output(OutputRequest::Sleep)),
    (
        "StartRecord",
        RequestType::Output(OutputRequest::StartRecord),
    ),
    ("StopRecord", RequestType::Output(OutputRequest::StopRecord)),
    (
        "ToggleInputMute",
        RequestType::Input(InputRequest::ToggleInputMute),
    ),
    (
        "ToggleRecord",
        RequestType::Output(OutputRequest::ToggleRecord),
    ),
    (
        "TriggerStudioModeTransition",
        RequestType::Output(OutputRequest::TriggerStudioModeTransition),
    ),
];

impl RequestType {
    ghost use Rattle.mix_requests.specs.Table.{type_of};

    /// The request of this type.
    pub fn of_text(kind: &str) -> RequestType
        ensures value { result ≡ type_of kind.now }
    {
        request_among(&TABLE, kind)
    }
}

/// The request of a type among these entries.
fn request_among(entries: &[(&'static str, RequestType)], kind: &str) -> RequestType
    ensures { result ≡ request_among (map (λ e. (e.0.now, e.1)) entries.now) kind.now }
{
    match entry_of(entries, kind) {
        Some(entry) => entry.1,
        None => RequestType::Unknown,
    }
}

/// The entry of a type among these.
fn entry_of<'a>(
    entries: &'a [(&'static str, RequestType)],
    kind: &str,
) -> Option<&'a (&'static str, RequestType)>
    ensures { option_copied result ≡ find (λ e. bytes_eq e.0.now kind.now) entries.now }
{
    entries.iter().find(|entry| entry.0 == kind)
}
