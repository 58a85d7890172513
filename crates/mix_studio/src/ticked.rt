//! What a video tick answers.
use mix_model::Shot;

/// What a video tick answers.
#[derive(Drop)]
pub enum Ticked {
    /// A frame is in flight under this number, and holds what was active. The shot shows the studio
    /// as the tick found it, and the frame belongs to the recording that the tick found running and
    /// not paused. `ended` says that a fade came to its end.
    Frame {
        number: u64,
        shot: Shot,
        recording: Option<u64>,
        ended: bool,
    },
    /// Too many frames are in flight.
    NoFrame,
}
