//! A gate at which a turn waits, for a while.
use std::sync::atomic::{AtomicU64, Ordering};

/// How often a turn looks whether its gate is open.
const LOOKS: u64 = 100_000_000;

/// What a turn waits at, for a while.
#[derive(Drop)]
pub struct Gate {
    inside: AtomicU64,
    open: AtomicU64,
}

impl Gate {
    pub fn new(open: u64) -> Gate {
        Gate {
            inside: AtomicU64::new(0),
            open: AtomicU64::new(open),
        }
    }

    /// A turn is inside. Whether the gate was open in time.
    pub fn pass(&self) -> bool {
        self.inside.store(1, Ordering::SeqCst);
        is_set(&self.open)
    }

    /// Looks for a turn inside, for as long as a turn waits.
    pub fn look_inside(&self) {
        is_set(&self.inside);
    }

    pub fn open(&self) {
        self.open.store(1, Ordering::SeqCst);
    }
}

/// Whether the word becomes 1 within so many looks.
fn is_set(word: &AtomicU64) -> bool {
    for _ in 0..LOOKS {
        if word.load(Ordering::SeqCst) == 1 {
            return true;
        }
    }
    false
}
