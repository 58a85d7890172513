//! Why a try or a split was refused.

/// Another's turn was on, or the turnstile has served all that it can.
#[derive(Clone, Copy)]
pub struct Busy {
    /// The ticket that was found: the turns that were begun.
    pub ticket: u64,
    /// The serving number that was looked at: the turns that were over.
    pub serving: u64,
}

/// Why a pass was not split.
#[derive(Clone, Copy)]
pub enum SplitFault {
    /// Another took the number that was looked at, or there are no more numbers.
    Crowded { looked: u64, found: u64 },
    /// There was no memory for it. A split takes none, so that it never answers this.
    NoMemory,
}
