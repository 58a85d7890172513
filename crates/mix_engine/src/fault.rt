//! Why an engine refuses an action.

/// Why an engine refuses an action.
#[derive(Clone, Copy)]
pub enum ActFault {
    /// There was no memory for it.
    NoMemory,
    /// The history has no room for the action: it has so many actions, and its text so many bytes.
    HistoryFull { turns: u64, bytes: u64 },
}

/// The first action that found no room in the history: the actions and the bytes that the history
/// had, and the bytes of the action's line.
#[derive(Clone, Copy)]
pub struct Full {
    pub turns: u64,
    pub bytes: u64,
    pub line: u64,
}
