//! Small words that events carry.

/// How the program changes.
#[derive(Clone, Copy)]
pub enum Transition {
    Cut,
    Fade,
}

/// What happened to the recording.
#[derive(Clone, Copy)]
pub enum RecordWord {
    Started,
    Stopped,
    Paused,
    Resumed,
}
