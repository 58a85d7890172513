//! The names of the numbers with which a request is answered.
ghost use Rattle.std.specs.Prelude.{◌≡◌, option_map};
ghost use Rattle.mix_events.specs.Statuses.{status_name};

/// The name of a number of `requestStatus` in obs-websocket 5, where the mixer knows it.
#[tactic(auto, unfolding(crate::specs::Statuses::status_name))]
pub fn status_name(code: u16) -> Option<&'static str>
    ensures value { option_map (λ name. name.now) result ≡ status_name code }
{
    match code {
        100 => Some("Success"),
        203 => Some("MissingRequestType"),
        204 => Some("UnknownRequestType"),
        205 => Some("GenericError"),
        206 => Some("UnsupportedRequestBatchExecutionType"),
        300 => Some("MissingRequestField"),
        301 => Some("MissingRequestData"),
        400 => Some("InvalidRequestField"),
        401 => Some("InvalidRequestFieldType"),
        402 => Some("RequestFieldOutOfRange"),
        403 => Some("RequestFieldEmpty"),
        404 => Some("TooManyRequestFields"),
        500 => Some("OutputRunning"),
        501 => Some("OutputNotRunning"),
        502 => Some("OutputPaused"),
        503 => Some("OutputNotPaused"),
        505 => Some("StudioModeActive"),
        506 => Some("StudioModeNotActive"),
        600 => Some("ResourceNotFound"),
        601 => Some("ResourceAlreadyExists"),
        602 => Some("InvalidResourceType"),
        603 => Some("NotEnoughResources"),
        604 => Some("InvalidResourceState"),
        605 => Some("InvalidInputKind"),
        606 => Some("ResourceNotConfigurable"),
        607 => Some("InvalidFilterKind"),
        700 => Some("ResourceCreationFailed"),
        702 => Some("RequestProcessingFailed"),
        _ => None,
    }
}
