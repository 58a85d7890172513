//! Running a script line by line.
mod answering;
mod last_line;
mod script;

pub use last_line::refuse_collection;
pub use script::replay;

/// How a run that wrote all its lines ended.
#[derive(Clone, Copy)]
pub enum Finished {
    /// The script was done to its end.
    Done,
    /// The script has more lines or bytes than a history takes.
    Full,
    /// The collection or a line isn't built.
    NotBuilt,
}

/// How a run ended.
#[derive(Clone, Copy)]
pub enum Ended {
    /// All lines were written.
    Whole(Finished),
    /// A source failed.
    ReadFault,
    /// A sink failed.
    WriteFault,
    /// There was no memory.
    NoMemory,
}
